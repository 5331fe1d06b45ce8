//! What bounds the fronts of a model.
ghost use Rattle.std.specs.Prelude.{◌≡◌, ◌<◌, ◌≤◌, IfOk};
ghost use Rattle.dp_spec.specs.Mode.{IsTrueFit};
ghost use Rattle.dp_pomdp.specs.Rooms.{IsRoomFor};
ghost use Rattle.dp_game.specs.Bounders.{IsBounderOf};

use dp_base::Memory;
use dp_mdp::MdpTable;
use dp_model::{Fit, Model};
use dp_pomdp::LookRoom;
use std::alloc::Global;

/// What the bounds of all fronts of a model and a horizon share: the look, and the table of the
/// underlying Markov decision process. Contracts see the record of these.
#[derive(Drop)]
pub struct Bounder {
    fit: Fit,
    look: u32,
    table: MdpTable,
}

impl std::marker::Model for Bounder {
    ghost use Rattle.dp_game.specs.Bounders.{KeptBounder};

    ghost Value = { KeptBounder };

    ghost view = { λ b. record {
      horizon = b.fit.horizon;
      is_exact = b.fit.exact;
      unit = b.fit.unit;
      look = b.look;
      kept = b.table;
    } };
}

impl Bounder {
    /// For a true fit of a model and a look from 1 to 16. The only error is want of memory.
    pub fn new(alloc: Global, model: &Model, fit: Fit, look: u32) -> Result<Bounder, Memory>
        requires fit { IsTrueFit model.now.model fit.horizon fit.exact fit.unit }
        requires some_look { 1 ≤ look }
        requires look { look ≤ 16 }
        ensures of_model { IfOk result (IsBounderOf model.now.model) }
        ensures horizon { IfOk result (λ b. b.horizon ≡ fit.horizon) }
        ensures look { IfOk result (λ b. b.look ≡ look) }
    {
        let table = MdpTable::build(alloc, model, fit)?;
        Ok(Bounder { fit, look, table })
    }

    /// Room to look ahead for games of this bounder. It keeps what was looked ahead before, so it is best
    /// made once for many games. The only error is want of memory.
    pub fn room(&self, alloc: Global, model: &Model) -> Result<LookRoom, Memory>
        requires of_model { IsBounderOf model.now.model self.now }
        ensures { IfOk result (IsRoomFor self.now.is_exact model.now.model self.now.look) }
    {
        let room = LookRoom::new(alloc, model, self.look())?;
        Ok(room)
    }

    // The fit.
    #[inline]
    pub(crate) fn fit(&self) -> Fit
        ensures horizon { result.horizon ≡ self.now.horizon }
        ensures mode { result.exact ≡ self.now.is_exact }
        ensures unit { result.unit ≡ self.now.unit }
    {
        self.fit
    }

    /// The look.
    #[inline]
    pub fn look(&self) -> u32
        ensures { result ≡ self.now.look }
    {
        self.look
    }

    // The table.
    #[inline]
    pub(crate) fn table(&self) -> &MdpTable
        ensures { result.now ≡ self.now.kept }
    {
        &self.table
    }
}
