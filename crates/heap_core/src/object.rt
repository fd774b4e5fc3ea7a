//! The core as a sequential object, of which there can be a history. Its states are runs of the heap.
use crate::heap::Core;
use crate::ranges::in_range;
use heap_spec::{Call, Event, Reply};
use history::{Object, Rank};

impl Object for Core {
    type Call = Event;

    type Reply = Reply;

    ghost use Rattle.heap_spec.specs.SequentialObject.{HeapState, Opens, StateStep};
    ghost use Rattle.heap_history.specs.Ranks.{rank_of};
    ghost use Rattle.heap_core.specs.AsObject.{Stands, Can};

    ghost State = { HeapState };

    ghost opens = { Opens };

    ghost stands = { Stands };

    ghost step = { StateStep };

    ghost can = { Can };

    ghost rank_of = { rank_of };

    fn rank(call: &Event) -> Rank {
        match call {
            Event::Attach => Rank::First,
            Event::Mutator(_, Call::Detach) => Rank::Last,
            Event::Finish | Event::Collect => Rank::Counted,
            Event::Mutator(_, _)
            | Event::Begin
            | Event::BeginPartial
            | Event::Roots
            | Event::Mark(_)
            | Event::Retrace
            | Event::Sweep
            | Event::Number => Rank::Plain,
        }
    }

    #[inline(always)]
    fn act(&mut self, who: u8, call: &Event) -> Reply {
        in_range(call);
        Core::act(self, *call)
    }
}
