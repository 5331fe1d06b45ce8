use crate::made_fronts::MadeFronts;
use dp_pomdp::LookRoom;

/// What a search keeps from one step to the next: room to look ahead, and fronts and games.
#[derive(Drop)]
pub(crate) struct SearchRoom {
    pub look: LookRoom,
    pub made: MadeFronts,
}
