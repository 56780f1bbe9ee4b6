//! Which functions reach a `printf` or a `spawn` by calls.

ghost use Rattle.std.specs.Prelude.{◌≡◌, ◌<◌, ◌≤◌, length, replicate, false};
ghost use Rattle.std.specs.Bool.{OnTrue, OnFalse};
ghost use Rattle.spawn_check.specs.Marking.{is_due_at, AreSound, AreClosed, AreExact, count_of_marked};

use crate::questions::{Question, some_in_body};
use crate::things::{FUNCTIONS, Sought};
use source_meaning::Function;

/// Whether a function that isn't marked has what is sought, or calls a marked one.
fn is_due(function: &Function, number: usize, what: Sought, marks: &[bool]) -> bool
    requires { number < length marks.now }
    ensures { result ≡ is_due_at function.now number what marks.now }
{
    !marks[number] && some_in_body(Question::LeadsTo(what), marks, function.body.as_slice())
}

/// Marks functions that have what is sought or call a marked one, and tells whether it marked one.
fn mark_more(functions: &[Function], what: Sought, marks: &mut [bool]) -> bool
    requires room { length functions.now ≤ length marks.old }
    requires sound { AreSound functions.now what marks.old }
    ensures sound { AreSound functions.now what marks.new }
    ensures more { OnTrue result (count_of_marked marks.old < count_of_marked marks.new) }
    ensures closed { OnFalse result (AreClosed functions.now what marks.new) }
{
    let mut more = false;
    for (number, function) in functions.iter().enumerate() {
        if is_due(function, number, what, marks) {
            marks[number] = true;
            more = true;
        }
    }
    more
}

fn none_marked() -> [bool; FUNCTIONS]
    ensures { result ≡ replicate 1000 false }
{
    [false; FUNCTIONS]
}

/// By number, which functions of a program have what is sought or reach it by calls. The numbers from that of the last function on are not marked.
pub fn marks_of(functions: &[Function], what: Sought) -> [bool; FUNCTIONS]
    requires { length functions.now ≤ 1000 }
    ensures { AreExact functions.now what result }
{
    let mut marks = none_marked();
    while mark_more(functions, what, &mut marks) {}
    marks
}
