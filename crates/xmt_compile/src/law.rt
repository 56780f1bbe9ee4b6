//! Which images implement a program.
ghost use Rattle.xmt_compile.specs.Law.{TracesImplement};

/// An image each of whose traces is one of the program, in bounded work, implements the program.
/// It does nothing when it runs.
pub fn traces_implement()
    ensures { TracesImplement }
{}
