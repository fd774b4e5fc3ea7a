//! How a history begins, and how it gets a name.
ghost use Rattle.std.specs.Prelude.{◌≡◌, [], IfOk, IfErr};
ghost use Rattle.history.specs.declared.object.TheConstants.{COLLECTOR as collector};
ghost use Rattle.words.specs.declared.refusal.OpenError.TheVariants.{Memory};

use crate::lending::Lends;
use crate::log::Log;
use crate::logged::Logged;
use crate::object::{COLLECTOR, Object};
use crate::pass::Pass;
use crate::rule::{Naming, Rule};
use crate::view::View;
use atomic_table::{Seat, Table};
use std::alloc::Global;
use std::marker::{Model, PhantomData};
use words::OpenError;

/// The parts of a new history, which have no name yet. Contracts see the object and the table.
#[derive(Drop)]
pub struct Opened<O: Object> {
    table: Table<(), View<O::Call, O::Reply>, u64, Rule<O>, Global>,
    object: O,
    keeper: Seat<(), View<O::Call, O::Reply>>,
    pass: Seat<(), View<O::Call, O::Reply>>,
}

impl<O: Object> Model for Opened<O> {
    ghost use Rattle.history.specs.Passes.{Unnamed};
    ghost use Rattle.history.specs.Rules.{AreOpened};

    ghost Value = { Unnamed O };

    ghost view = { λ o. record { object = o.object; table = o.table.shared.table_id; origin = o.table.shared.key } };

    ghost invariant = { λ o. AreOpened (O.opens o.table.shared.key) O.stands o.table.shared.table_id o.keeper.table_id o.pass.table_id
        o.keeper.me.0 o.pass.me.0 o.object };
}

/// An empty history of an object. The one error is [`OpenError::Memory`]: no later call on the history takes any.
pub fn open<O: Object + Drop>(alloc: Global, origin: u64, object: O) -> Result<Opened<O>, OpenError>
    requires { (s : O.State) × O.opens origin s × O.stands object s }
    ensures opened { IfOk result (λ opened. (opened.object ≡ object) × (opened.origin ≡ origin)) }
    ensures err { IfErr result (λ error. error ≡ Memory) }
{
    let (table, mut keeper) = Table::of_words(alloc, &[0], &origin)?;
    // The first seat has both rights. The collector's pass leaves it here, and the keeper's stays.
    let pass = table.shared.split_seat::<Lends>(&mut keeper);
    Ok(Opened {
        table,
        object,
        keeper,
        pass,
    })
}

impl<O: Object> Opened<O> {
    /// The parts, under the name that was picked for the table: the log, the object with its empty history, and the
    /// collector's pass, which has seen nothing.
    pub fn named<J: Naming>(self) -> (Log<O, J>, Logged<O, J>, Pass<O, J>)
        requires table { self.table ≡ J.table }
        requires origin { self.origin ≡ J.origin }
        ensures logged { result.1 ≡ record { object = self.object; history = [] } }
        ensures pass { result.2 ≡ record { slot = collector; seen = []; mine = [] } }
    {
        let Opened {
            table,
            object,
            keeper,
            pass,
        } = self;
        let of = PhantomData;
        let log = Log { table, of };
        let logged = Logged {
            object,
            begun: 0,
            keeper,
            of: PhantomData,
        };
        let pass = Pass {
            slot: COLLECTOR,
            seat: pass,
            of: PhantomData,
        };
        (log, logged, pass)
    }
}
