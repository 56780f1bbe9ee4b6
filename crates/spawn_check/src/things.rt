//! What the rules of spawn blocks speak of.

ghost use Rattle.std.specs.Prelude.{◌≡◌};
ghost use Rattle.spawn_check.specs.Things.{serial, in_block, in_loop};

/// A thing that a rule speaks of.
#[derive(Clone, Copy)]
pub(crate) enum Thing {
    /// `$`
    Dollar,
    /// `return`
    Return,
    /// `break` or `continue`
    Jump,
    /// `spawn`
    Spawn,
    /// `printf`
    Print,
    /// A call of the function with this number.
    Call(u32),
}

/// What stands around a thing.
#[derive(Clone, Copy)]
pub(crate) struct Around {
    /// Whether a spawn block does.
    pub inside: bool,
    /// Whether a loop does, inside the same block or, outside blocks, in the same function.
    pub looped: bool,
}

impl Around {
    /// Around the body of a function.
    pub(crate) fn serial() -> Around
        ensures { result ≡ serial }
    {
        Around {
            inside: false,
            looped: false,
        }
    }

    /// Around the block of a spawn.
    pub(crate) fn block() -> Around
        ensures { result ≡ in_block }
    {
        Around {
            inside: true,
            looped: false,
        }
    }

    /// Around the body of a loop that this stands around.
    pub(crate) fn with_loop(self) -> Around
        ensures { result ≡ in_loop self }
    {
        Around {
            inside: self.inside,
            looped: true,
        }
    }
}

/// What a function may reach by calls.
#[derive(Clone, Copy)]
pub enum Sought {
    /// A `printf`.
    Print,
    /// A `spawn`.
    Spawn,
}

/// The greatest number of functions of a program.
pub(crate) const FUNCTIONS: usize = 1_000;

/// Which functions reach what, by number.
#[derive(Drop)]
pub(crate) struct Marks {
    pub prints: [bool; FUNCTIONS],
    pub spawns: [bool; FUNCTIONS],
}
