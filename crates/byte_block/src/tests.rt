ghost use Rattle.std.specs.Prelude.{◌≡◌, [], ◌∷◌, IfOk};

use crate::{FreeRange, FrozenRange, RawBytes};
use sim_base::NoMemory;
use std::alloc::Global;
use std::test::Fail;
use std::thread;

// A block of 16 places with the bytes 1 to 4 from place 8 on, and what is free on both sides.
fn parts(alloc: Global) -> Result<(FreeRange, FrozenRange, FreeRange), NoMemory>
    ensures { IfOk result (λ r. (r.0.from ≡ 0) × (r.0.to ≡ 8) × (r.1.from ≡ 8) × (r.1.bytes ≡ 1 ∷ 2 ∷ 3 ∷ 4 ∷ [])
        × (r.2.from ≡ 12) × (r.2.to ≡ 16) × (r.1.block ≡ r.0.block) × (r.2.block ≡ r.0.block)) }
{
    let (low, rest) = RawBytes::make(alloc, 16)?.split_at(8)?;
    let (middle, high) = rest.split_at(4)?;
    Ok((low, middle.freeze(&[1, 2, 3, 4]), high))
}

#[test]
fn ranges_grow_at_both_ends(rt: HostRuntime) -> Result<(), Fail> {
    let (mut low, mut bytes, mut high) = parts(rt.alloc())?;
    let before = bytes.share()?;
    low.freeze_last(&[8, 9], &mut bytes);
    high.freeze_first(&[5], &mut bytes);
    assert_eq!(rt; bytes.slice(), [8, 9, 1, 2, 3, 4, 5].as_slice());
    assert_eq!(rt; before.slice(), [1, 2, 3, 4].as_slice());
    drop(low);
    drop(high);
    drop(bytes);
    assert_eq!(rt; before.slice(), [1, 2, 3, 4].as_slice());
    Ok(())
}

#[test]
fn threads_read_and_fill_one_block(rt: HostRuntime) -> Result<(), Fail> {
    let (mut low, mut bytes, _high) = parts(rt.alloc())?;
    let theirs = bytes.share()?;
    let reader = thread::spawn(&rt, move || theirs.slice() == [1, 2, 3, 4].as_slice())?;
    low.freeze_last(&[7; 8], &mut bytes);
    assert!(rt; reader.join(&rt));
    assert_eq!(rt;
        bytes.slice(),
        [7, 7, 7, 7, 7, 7, 7, 7, 1, 2, 3, 4].as_slice()
    );
    Ok(())
}
