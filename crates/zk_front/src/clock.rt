/// A source of time.
pub trait Clock: Drop {
    ghost use Rattle.std.specs.Prelude.{⊤, ℤ};

    /// A clock in the first state may return this time, and is then in the second. For the
    /// machine's clock, nothing is specified.
    ghost tells: { Self → ℤ → Self → Type 0 } = { λ _ _ _. ⊤ };

    /// Returns milliseconds since a moment that the clock's owner chooses.
    fn now(&mut self) -> i64
        ensures { tells self.old result self.new };
}
