//! Tables as texts. The node's own identifier is twenty bytes ff.
ghost use Rattle.std.specs.Prelude.{IfOk};
ghost use Rattle.table_file.specs.SavedText.{FailedOnce};

use contact_table::{Saved, Table, TableCall};
use kad_base::{Addr, Contact, Id, Ip, NoMemory, Serial};
use std::alloc::Global;
use std::test::Fail;
use table_file::write;

/// The contact whose identifier is 1, at this address.
fn contact(ip: Ip, port: u16) -> Contact {
    let mut id = [0; 20];
    id[19] = 1;
    let addr = Addr { ip, port };
    Contact { id: Id(id), addr }
}

/// What a table has that was told of one contact.
fn of_one(alloc: Global, contact: Contact) -> Result<Saved, NoMemory>
    ensures { IfOk result (λ saved. FailedOnce saved.rows) }
{
    let mut table = Table::new(alloc, Id([0xff; 20]), 8, 1)?;
    let _reply = table.apply(0, TableCall::Seen { contact });
    table.sound();
    table.rows()
}

#[test]
fn a_table_of_one_contact_is_five_lines(rt: HostRuntime) -> Result<(), Fail> {
    let saved = of_one(rt.alloc(), contact(Ip::V4([127, 0, 0, 1]), 6001))?;
    let text = write(rt.alloc(), &saved)?;
    let wanted =
        b"table ffffffffffffffffffffffffffffffffffffffff 8 1\nrow -\nlive 0000000000000000000000000000000000000001 127.0.0.1:6001 0\nsibling 0000000000000000000000000000000000000001 127.0.0.1:6001\nend\n";
    assert_eq!(rt; text.as_slice(), wanted.as_slice());
    Ok(())
}

/// The address is of the network that RFC 3849 keeps for examples.
#[test]
fn an_address_of_ipv6_has_all_its_groups(rt: HostRuntime) -> Result<(), Fail> {
    let ip = [
        0x20, 0x01, 0x0d, 0xb8, 0, 0, 0, 0, 0, 0, 0, 0, 0, 0, 0, 0xff,
    ];
    let saved = of_one(rt.alloc(), contact(Ip::V6(ip), 6881))?;
    let text = write(rt.alloc(), &saved)?;
    let wanted =
        b"table ffffffffffffffffffffffffffffffffffffffff 8 1\nrow -\nlive 0000000000000000000000000000000000000001 [2001:0db8:0000:0000:0000:0000:0000:00ff]:6881 0\nsibling 0000000000000000000000000000000000000001 [2001:0db8:0000:0000:0000:0000:0000:00ff]:6881\nend\n";
    assert_eq!(rt; text.as_slice(), wanted.as_slice());
    Ok(())
}
