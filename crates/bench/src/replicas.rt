//! The replicas of the nodes behind the first: each as long as the first one's, in a memory that is taken when the pipeline is set up.
ghost use Rattle.std.specs.Prelude.{◌≡◌, ◌+◌, ◌≤◌, true, ◌++◌, map, length, replicate, IfOk, vec_len, vec_capacity, nat_le};
ghost use Rattle.bench.specs.Replicas.{copies, roomy};

use std::alloc::{AllocError, Global};

fn fits_more(replica: &Vec<u8>, more: usize) -> bool
    ensures { result ≡ nat_le (vec_len replica.now + more) (vec_capacity replica.now) }
{
    let room = replica.capacity();
    let used = replica.len();
    used <= room && more <= room - used
}

// Whether each replica has room for so many bytes more.
pub(crate) fn has_room(replicas: &[Vec<u8>], more: usize) -> bool
    ensures { result ≡ roomy more replicas.now }
{
    replicas.iter().all(|replica| fits_more(replica, more))
}

// Adds bytes to each replica.
pub(crate) fn append_all(replicas: &mut [Vec<u8>], more: &[u8])
    requires { roomy (length more.now) replicas.old ≡ true }
    ensures { copies replicas.new ≡ map (λ b. b ++ more.now) (copies replicas.old) }
{
    for replica in replicas.iter_mut() {
        let _ = replica.extend_from_slice(more);
    }
}

// Bytes in a memory of their own, with room for as many as `room`.
// A replica takes all its room at once, so that no put needs memory.
fn copy_of(heap: Global, bytes: &[u8], room: usize) -> Result<Vec<u8>, AllocError>
    ensures { IfOk result (λ v. v.items ≡ bytes.now) }
{
    let mut copy = Vec::with_capacity(heap, room)?;
    copy.extend_from_slice(bytes)?;
    Ok(copy)
}

// So many copies of some bytes.
pub(crate) fn copies_of(
    heap: Global,
    bytes: &[u8],
    count: usize,
    room: usize,
) -> Result<Vec<Vec<u8>>, AllocError>
    ensures { IfOk result (λ v. copies v.items ≡ replicate count bytes.now) }
{
    let mut all = Vec::new(heap);
    // A loop, since of `try_collect` over a range the check does not see what it collects.
    'copies: for _ in 0..count {
        all.push(copy_of(heap, bytes, room)?)?;
    }
    Ok(all)
}
