// The hash by which entries are found: FNV-1a with 64 bits (Fowler, Noll and Vo), which has no key.
ghost use Rattle.std.specs.Prelude.{◌≡◌, ◌<◌};
ghost use Rattle.stop_lists.specs.Hash.{hash_start, hash_step, hash_more, hash_of, home_of};

const START: u64 = 0xcbf2_9ce4_8422_2325;

const PRIME: u64 = 0x0000_0100_0000_01b3;

// The hash of the bytes.
pub(crate) fn hash_of(bytes: &[u8]) -> u64
    ensures { result ≡ hash_of bytes.now }
{
    hash_more(START, bytes)
}

// The hash of the bytes behind those that have this hash.
pub(crate) fn hash_more(hash: u64, bytes: &[u8]) -> u64
    ensures { result ≡ hash_more hash bytes.now }
{
    let mut state = hash;
    for byte in bytes {
        state = hash_step(state, *byte);
    }
    state
}

#[inline]
#[tactic(auto, unfolding(crate::specs::Hash::hash_step))]
fn hash_step(hash: u64, byte: u8) -> u64
    ensures { result ≡ hash_step hash byte }
{
    (hash ^ u64::from(byte)).wrapping_mul(PRIME)
}

// The bucket of a hash, among so many. It asks for one at least.
#[inline]
#[tactic(auto, unfolding(crate::specs::Hash::home_of))]
pub(crate) fn home_of(hash: u64, count: usize) -> usize
    requires { 0 < count }
    ensures home { result ≡ home_of hash count }
    ensures within { result < count }
{
    (hash ^ (hash >> 32)) as usize % count
}
