//! Quota, usage and modes.

use opfs_base::Key;
use opfs_shed::{QuotaHit, Shed};
use std::test::Fail;

#[test]
#[tactic(auto, unfolding(opfs_shed::specs::Buckets::usage_of))]
fn the_quota_counts_what_is_used(rt: HostRuntime) -> Result<(), Fail> {
    let key = Key::of_text(rt.alloc(), "https://a.example")?;
    let mut shed = Shed::make(rt.alloc(), 2);
    shed.touch(&key)?;
    shed.add(&key, 2);
    assert_eq!(rt; shed.usage(&key), 2);
    let hit = QuotaHit {
        usage: 2,
        need: 1,
        quota: 2,
    };
    assert_eq!(rt; shed.check(&key, 1), Err(hit));
    assert_eq!(rt; shed.check(&key, 0), Ok(()));
    shed.free(&key, 1);
    assert_eq!(rt; shed.check(&key, 1), Ok(()));
    shed.clear(&key);
    assert_eq!(rt; shed.usage(&key), 0);
    Ok(())
}

#[test]
#[tactic(auto, unfolding(opfs_shed::specs::Buckets::usage_of))]
fn an_origin_uses_what_its_units_use(rt: HostRuntime) -> Result<(), Fail> {
    let origin = Key::of_text(rt.alloc(), "https://a.example")?;
    let bucket = Key::of_text(rt.alloc(), "https://a.example#inbox")?;
    let other = Key::of_text(rt.alloc(), "https://b.example")?;
    let mut shed = Shed::make(rt.alloc(), 3);
    shed.touch(&bucket)?;
    shed.add(&bucket, 3);
    assert_eq!(rt; shed.usage(&origin), 3);
    assert_eq!(rt; shed.usage(&other), 0);
    assert!(rt; shed.check(&origin, 1).is_err());
    assert_eq!(rt; shed.check(&other, 3), Ok(()));
    Ok(())
}

#[test]
fn a_persistent_unit_is_found(rt: HostRuntime) -> Result<(), Fail> {
    let key = Key::of_text(rt.alloc(), "a")?;
    let mut shed = Shed::make(rt.alloc(), 1);
    shed.touch(&key)?;
    shed.set_persistent(&key);
    assert!(rt; shed.is_persistent(&key));
    assert!(rt; shed.persistent_after(None).is_some());
    Ok(())
}
