use super::*;
use std::test::Fail;
use std::thread::join;

#[test]
fn goes_to_another_thread(rt: HostRuntime) -> Result<(), Fail> {
    let one = Known::new(&3_u64);
    let two = one.again();
    let shared = &two;
    let (a, b) = join(
        &rt,
        move || {
            drop(one);
            let _ = shared;
            1
        },
        move || {
            let _ = shared;
            2
        },
    );
    assert!(rt; a + b == 3);
    Ok(())
}
