// A plan: the shares of a host's guests and what each is owed, both lent, within these limits.
#[derive(Drop)]
pub struct Plan<'s, 'o> {
    pub shares: &'s [u32],
    pub owed: &'o mut [i64],
}

impl Plan<'_, '_> {
    pub const MAX_GUESTS: usize = 64;

    pub const MAX_SHARE: u32 = 1000;
}
