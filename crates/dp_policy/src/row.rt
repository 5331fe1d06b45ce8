ghost use Rattle.std.specs.Prelude.{◌≡◌, ◌<◌, length, slice_index};

use dp_model::Sequence;

/// A row of a stage of a shared policy: its action, and for each own observation the number of the
/// row that follows at the next stage.
#[derive(Drop)]
pub struct Row {
    pub action: u32,
    pub next: Sequence<u32>,
}

impl std::marker::Model for Row {
    ghost use Rattle.dp_spec.specs.SharedPolicy.{PolicyRow};

    ghost Value = { PolicyRow };

    ghost view = { λ r. record { action = r.action; next = r.next } };
}

impl Row {
    // The action.
    #[inline]
    pub(crate) fn action(&self) -> u32
        ensures { result ≡ self.now.action }
    {
        self.action
    }

    // The next rows.
    #[inline]
    pub(crate) fn nexts(&self) -> &[u32]
        ensures { result.now ≡ self.now.next }
    {
        self.next.as_slice()
    }
}
