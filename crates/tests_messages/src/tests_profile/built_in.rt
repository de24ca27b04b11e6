//! The profile of each version, read of its text.

use gnb_types::octets::Memory;
use profile::profile_module::{Profile, builtin, builtin_2};
use std::process::Abort;
use std::test::Fail;

fn is_the_profile(profile: Result<Profile, Memory>, version: u8) -> bool {
    match profile {
        Ok(profile) => {
            let module = profile.module();
            profile.version() == version
                && module.len() == 53
                && module.name() == b"SplitGNB".as_slice()
        }
        Err(_) => false,
    }
}

#[test]
fn both_versions_are_read(rt: HostRuntime) -> Result<(), Fail> {
    let alloc = rt.alloc();
    assert!(rt; is_the_profile(builtin(alloc), 1));
    assert!(rt; is_the_profile(builtin_2(alloc), 2));
    Ok(())
}
