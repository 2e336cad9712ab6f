/// The greatest seed of a trial.
pub const MAX_SEED: u32 = 2_147_483_647;
