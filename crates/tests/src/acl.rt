//! What no deck asks of a permission list: its long text form whole, and one more of it.
use acl_text::{parse_short, put_long};
use std::alloc::Global;

/// A list under whose mask some entries keep all permissions, some a part and some none.
const MASKED: &[u8] = b"u::rwx,u:hugo:rwx,u:lisa:r,g::w,g:ops:rw,g:staff:,g:temp:x,m::r,o::rwx";

const MASKED_LONG: &[u8] =
    b"user::rwx\nuser:hugo:rwx\t#effective:r--\nuser:lisa:r--\ngroup::-w-\t#effective:---\ngroup:ops:rw-\t#effective:r--\ngroup:staff:---\ngroup:temp:--x\t#effective:---\nmask::r--\nother::rwx\n";

fn tells_the_mask(alloc: Global) -> bool {
    let Ok(acl) = parse_short(alloc, MASKED) else {
        return false;
    };
    let mut out = Vec::new(alloc);
    match acl.copy(alloc) {
        Ok(acl) => put_long(&acl, &mut out).is_ok() && out.as_slice() == MASKED_LONG,
        Err(_) => false,
    }
}

#[test]
fn what_the_mask_leaves_is_told(rt: HostRuntime) {
    assert!(rt; tells_the_mask(rt.alloc()));
}
