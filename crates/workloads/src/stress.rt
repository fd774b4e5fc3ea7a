//! Random scripts.
ghost use Rattle.std.specs.Prelude.{◌≡◌, ℕ, ◌+◌, ◌≤◌, [], ◌∷◌, ◌++◌, IfOk, OnOk, replicate, map};
ghost use Rattle.words.specs.declared.limits.TheConstants.{SLOTS};
ghost use Rattle.scripts.specs.Lines.{newline};
ghost use Rattle.scripts.specs.Turns.{text_of};
ghost use Rattle.workloads.specs.declared.limits.TheConstants.{MAX_STEPS};
ghost use Rattle.workloads.specs.Stress.{line_of_command, drawn_text, stress_text};

use crate::draw::draw;
use crate::written_commands::put_command;
use arrayvec::ArrayString;
use heap_spec::Event;
use rand_core::SeedableRng;
use rand_core::utils::NextWord;
use rand_pcg::Lcg64Xsh32;
use scripts::limits::LINE_BYTES;
use std::alloc::{AllocError, Global};
use words::RunError;

// Puts a command's line behind a text.
fn put_line(text: &mut Vec<u8>, command: Event) -> Result<(), AllocError>
    ensures { OnOk result (text.new.items ≡ text.old.items ++ line_of_command command ++ newline ∷ []) }
{
    let mut line = ArrayString::<LINE_BYTES>::new();
    put_command(&mut line, command);
    text.extend_from_slice(line.as_str().as_bytes())?;
    text.push(b'\n')?;
    Ok(())
}

// Puts the line that the next four words draw.
fn put_draw(text: &mut Vec<u8>, words: &mut Lcg64Xsh32, mutators: u8) -> Result<(), AllocError>
    requires { mutators ≤ SLOTS }
    ensures { OnOk result ((steps : ℕ) → text.old.items ++ drawn_text mutators (steps + 1) words.old ≡ text.new.items ++ drawn_text mutators steps words.new) }
{
    let x0 = words.next_word();
    let x1 = words.next_word();
    let x2 = words.next_word();
    let x3 = words.next_word();
    put_line(text, draw(mutators, x0, x1, x2, x3))
}

// Puts the attaches of so many mutators.
fn put_attaches(text: &mut Vec<u8>, mutators: u8) -> Result<(), AllocError>
    ensures { OnOk result (text.new.items ≡ text.old.items ++ text_of (map line_of_command (replicate mutators Event.Attach))) }
{
    for _mutator in 0..mutators {
        put_line(text, Event::Attach)?;
    }
    Ok(())
}

// Puts the lines that the next words draw.
fn put_draws(
    text: &mut Vec<u8>,
    words: &mut Lcg64Xsh32,
    mutators: u8,
    steps: u32,
) -> Result<(), AllocError>
    requires { mutators ≤ SLOTS }
    ensures { OnOk result (text.new.items ≡ text.old.items ++ drawn_text mutators steps words.old) }
{
    for _step in 0..steps {
        put_draw(text, words, mutators)?;
    }
    Ok(())
}

/// Makes the random script of a seed, of so many mutators and so many lines behind their attaches.
pub fn make_stress(alloc: Global, seed: u64, mutators: u8, steps: u32) -> Result<Vec<u8>, RunError>
    requires some { 1 ≤ mutators }
    requires most { mutators ≤ SLOTS }
    requires steps { steps ≤ MAX_STEPS }
    ensures { IfOk result (λ text. text.items ≡ stress_text seed mutators steps) }
{
    let mut text = Vec::new(alloc);
    put_attaches(&mut text, mutators)?;
    let mut words = Lcg64Xsh32::seed_from_u64(seed);
    put_draws(&mut text, &mut words, mutators, steps)?;
    Ok(text)
}
