//! What every command is called with.

use std::hash::RandomState;

/// What every command is called with, below the top calls: 32 bytes that nobody else knows, how a contact's proof is
/// checked, the group's seal, and the hasher of what it indexes.
#[derive(Drop)]
pub struct Call<'a, C, G> {
    pub random: [u8; 32],
    pub check: &'a C,
    pub seal: &'a G,
    pub hasher: RandomState,
}
