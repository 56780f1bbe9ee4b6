//! Laws of maps and dumps.
ghost use Rattle.std.specs.Prelude.{ℕ, ◌≡◌, ◌<◌, ◌^◌, List, All, length};
ghost use Rattle.xmt_base.specs.declared.values.Symbol.{Symbol};
ghost use Rattle.xmt_isa.specs.Symbols.{AreSymbols};
ghost use Rattle.memory_map.specs.MapText.{MapText};
ghost use Rattle.memory_map.specs.DumpText.{dump_text};

/// Reading a dump gives its memory, whatever the opening values are.
pub fn dump_is_read()
    ensures { (symbols : List Symbol) (words opening : List ℕ) → AreSymbols symbols (length words) → All (λ word. word < 2 ^ 32) words → length opening ≡ length words → MapText (dump_text symbols words) symbols opening words }
{}
