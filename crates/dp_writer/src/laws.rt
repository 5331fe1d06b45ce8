ghost use Rattle.dp_writer.specs.WriterLaws.{WrittenChancesReadBack, WrittenRewardsReadBack, WrittenRowsNeedNoRepair};
ghost use Rattle.dp_writer.specs.WriterLaws.{SaidTextsReadBack, WrittenModelsReadBack, WrittenScalesHaveRoom};

/// The word that is written of a chance which is a whole multiple of `10^-18` is read as that chance.
pub fn written_chances_read_back()
    ensures { WrittenChancesReadBack }
{}

/// The word that is written of a reward is read as that reward.
pub fn written_rewards_read_back()
    ensures { WrittenRewardsReadBack }
{}

/// A row of chances that is written in decimals is read with the same fractions, and needs no repair.
pub fn written_rows_need_no_repair()
    ensures { WrittenRowsNeedNoRepair }
{}

/// The scale with which written rows are read has room for each cell that is written in decimals, and can be divided
/// by the length of uniform rows.
pub fn written_scales_have_room()
    ensures { WrittenScalesHaveRoom }
{}

/// A file whose text says a model that can be written means a model without repaired rows, with equal sizes, equal
/// names and the same fractions.
pub fn said_texts_read_back()
    ensures { SaidTextsReadBack }
{}

/// The text that is written of a model that can be written means that model again: no row is repaired, sizes and names
/// are equal, and the chances, the discount and the rewards are the same fractions.
pub fn written_models_read_back()
    ensures { WrittenModelsReadBack }
{}
