/// Returns the number after `seed` of a xorshift generator. If `seed` isn't 0, the result isn't 0
/// either.
pub fn next_random(seed: u64) -> u64 {
    let seed = seed ^ seed.wrapping_shl(13);
    let seed = seed ^ (seed >> 7);
    seed ^ seed.wrapping_shl(17)
}
