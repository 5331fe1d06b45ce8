// Texts that only proofs read.
ghost use Rattle.std.specs.Prelude.{◌≡◌, ◌++◌, [], ◌∷◌, List, ℕ};
ghost use Rattle.std.specs.Borrow.{ftrue};

/// The texts that were taken so far, the first of them first. They stand in contracts alone: they
/// take no memory, and nothing is done with them when the program runs.
#[derive(Drop)]
pub struct Texts {
    pub ghost items: { List (List ℕ) },
}

impl std::marker::Model for Texts {
    ghost also_owns = { λ _. ftrue };
}

impl Texts {
    /// No text.
    pub fn new() -> Texts
        ensures { result.items ≡ [] }
    {
        Texts {}
    }

    /// Takes one more text.
    pub fn take(&mut self, _text: &[u8])
        ensures { self.new.items ≡ self.old.items ++ _text.now ∷ [] }
    {}
}
