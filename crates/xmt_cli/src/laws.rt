//! What the words of a job are.
ghost use Rattle.std.specs.Prelude.{◌≡◌, ◌↔◌, ℕ, List, Some};
ghost use Rattle.xmt_cli.specs.JobOf.{Task, task_of};
ghost use Rattle.xmt_cli.specs.Spelling.{IsTask};

/// Words are read as a job exactly where they spell it, their parts in any order.
pub fn jobs_are_spelled()
    ensures { (words : List (List ℕ)) (task : Task) → (task_of words ≡ Some task) ↔ IsTask words task }
{}
