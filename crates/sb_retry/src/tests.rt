//! Pauses of several settings.

ghost use Rattle.std.specs.Prelude.{◌≡◌, ◌≢◌, ◌⊎◌};

use crate::Schedule;
use std::test::Fail;

/// Whether the pauses of these settings are just these.
fn has(first: u32, total: u32, pauses: &[u64]) -> bool
    requires { (first ≢ 0) ⊎ (total ≡ 0) }
{
    let mut schedule = Schedule::new(first, total);
    for pause in pauses {
        if schedule.next() != Some(*pause) {
            return false;
        }
    }
    schedule.next().is_none() && schedule.next().is_none()
}

#[test]
fn pauses_double_and_the_last_is_cut(rt: HostRuntime) -> Result<(), Fail> {
    let pauses = [200, 400, 800, 1600, 3200, 6400, 12_800, 4600];
    assert!(rt; has(200, 30_000, &pauses));
    assert!(rt; has(200, 600, &[200, 400]));
    assert!(rt; has(200, 100, &[100]));
    assert!(rt; has(0, 0, &[]));
    assert!(rt; has(4_294_967_295, 4_294_967_295, &[4_294_967_295]));
    Ok(())
}
