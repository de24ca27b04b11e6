//! What is due of open requests.

ghost use Rattle.std.specs.Prelude.{◌≡◌, ◌++◌, OnOk};
ghost use Rattle.std.specs.List.{flat_map};
ghost use Rattle.unit_requests.specs.setup_requests.Dues.{put_again};

use gnb_types::items::Memory;
use gnb_types::outputs::{Output, Outputs};
use transactions::caller::Due;

/// What is due of one open request is put again.
fn put_one(item: &Due, outputs: &mut Outputs) -> Result<(), Memory>
    ensures { OnOk result (outputs.new ≡ outputs.old ++ put_again item.now) }
{
    match item {
        Due::Repeat { channel, bytes } => {
            let bytes = bytes.clone()?;
            outputs.push(Output::Control {
                to: channel.peer,
                ue: channel.ue,
                bytes,
            })
        }
        Due::Expired { .. } => Ok(()),
    }
}

/// What is due at a tick is put again.
pub fn put_due(due: &[Due], outputs: &mut Outputs) -> Result<(), Memory>
    ensures { OnOk result (outputs.new ≡ outputs.old ++ flat_map put_again due.now) }
{
    for item in due {
        put_one(item, outputs)?;
    }
    Ok(())
}
