use crate::kits::{KIT, object, told_in, words_of};
use kl_base::{Listed, Name, Slot};
use kl_digest::RecordFault;
use kl_elf::HeadFault;
use kl_jobs::{Cause, KitCause, ObjectCause, RecordCause};
use kl_kit::KitFault;
use kl_mem::MemStore;
use kl_model::{FieldAt, LinkFault};
use kl_rel::{ReadFault, ReadKind};
use std::alloc::Global;
use std::test::Fail;

/// The digest of `abc`, as FIPS 180-4's examples have it.
const OF_ABC: &[u8] = b"ba7816bf8f01cfea414140de5dae2223b00361a396177a9cb410ff61f20015ad";

/// The digest of no bytes, as `sha256sum` prints it.
const OF_NOTHING: &[u8] = b"e3b0c44298fc1c149afbf4c8996fb92427ae41e4649b934ca495991b7852b855";

/// The intent of a kernel, which was `abc` and is to have no bytes, and of a map, which wasn't there.
const INTENT: &[u8] = b"\
relink intent 1
batch kernel
entry /bsd ba7816bf8f01cfea414140de5dae2223b00361a396177a9cb410ff61f20015ad e3b0c44298fc1c149afbf4c8996fb92427ae41e4649b934ca495991b7852b855
entry /var/db/kernel.map - ba7816bf8f01cfea414140de5dae2223b00361a396177a9cb410ff61f20015ad
end
";

/// How a record is made.
const RECORD_FORM: &str =
    "relink: it has to be the line 'SHA256 (/bsd) = ' with the 64 digits of the digest of /bsd behind it, as OpenBSD's 'sha256 /bsd >/var/db/kernel.SHA256' writes it\n";

/// What helps where a file stops a recovery.
const GIVE_UP: &str =
    "relink: nothing of that batch was changed: if its files are meant to stay as they are, remove /var/db/relink.kernel.intent to give the batch up; else put that file right and run 'relink recover'\n";

fn digest(digits: &[u8]) -> Result<[u8; 32], Fail> {
    let mut digest = [0; 32];
    hex::decode_to_slice(digits, &mut digest)?;
    Ok(digest)
}

/// What is told of a cause of words, which bars part, in the root.
fn told(alloc: Global, line: &[u8], cause: &Cause, store: &mut MemStore) -> Result<String, Fail> {
    let words = words_of(alloc, line)?;
    told_in(alloc, "/", &words, cause, store)
}

/// What stands between `relink: ` and the end of a text.
fn before<'a>(text: &'a str, end: &str) -> Option<&'a str> {
    text.strip_prefix("relink: ")?.strip_suffix(end)
}

#[test]
fn tells_words_of_the_system(rt: HostRuntime) -> Result<(), Fail> {
    let alloc = rt.alloc();
    let rows: [(&[u8], &str); 8] = [
        (
            b"reorder_kernel|/kit",
            "the word '/kit' is one too many: 'reorder_kernel' takes '--seed HEX' alone",
        ),
        (
            b"reorder_kernel|--seed|0000000000000000000000000000000000000000000000000000000000000000|now",
            "the word 'now' is one too many: 'reorder_kernel' takes '--seed HEX' alone",
        ),
        (
            b"reorder_kernel|--seed",
            "'--seed' needs a seed of 64 hexadecimal digits behind it",
        ),
        (
            b"reorder_kernel|--seed|00ff",
            "the seed '00ff' has 4 digits, not 64",
        ),
        (
            b"reorder_kernel|--seed|gggggggggggggggggggggggggggggggggggggggggggggggggggggggggggggggg",
            "the seed 'gggggggggggggggggggggggggggggggggggggggggggggggggggggggggggggggg' has a byte that is no hexadecimal digit",
        ),
        (
            b"recover|--seed|0000000000000000000000000000000000000000000000000000000000000000",
            "'recover' takes no seed: leave '--seed' out",
        ),
        (
            b"recover|--seed",
            "'recover' takes no seed: leave '--seed' out",
        ),
        (
            b"recover|kernel",
            "the word 'kernel' is one too many: 'recover' takes none",
        ),
    ];
    for (line, wanted) in rows {
        let text = told(alloc, line, &Cause::Usage, &mut MemStore::new(alloc))?;
        assert_eq!(rt; before(&text, "\n"), Some(wanted));
    }
    Ok(())
}

#[test]
fn tells_what_keeps_a_job_from_its_kit(rt: HostRuntime) -> Result<(), Fail> {
    let alloc = rt.alloc();
    let rows = [
        (
            Cause::Pending { slot: Slot::Kernel },
            "/var/db/relink.kernel.intent: a job was stopped before its files were in place: run 'relink recover'\n",
        ),
        (
            Cause::Pending { slot: Slot::Libs },
            "/var/db/relink.libs.intent: a job was stopped before its files were in place: run 'relink recover'\n",
        ),
        (
            Cause::Mismatch {
                recorded: digest(OF_ABC)?,
                found: Some(digest(OF_NOTHING)?),
            },
            "/bsd isn't the kernel that /var/db/kernel.SHA256 names: its digest is e3b0c44298fc1c149afbf4c8996fb92427ae41e4649b934ca495991b7852b855, and the record has ba7816bf8f01cfea414140de5dae2223b00361a396177a9cb410ff61f20015ad\n\
             relink: if it is the one that is meant, OpenBSD's 'sha256 /bsd >/var/db/kernel.SHA256' writes its record anew; else put the old one back\n",
        ),
        (
            Cause::Mismatch {
                recorded: digest(OF_ABC)?,
                found: None,
            },
            "/bsd: no such file\n\
             relink: put the kernel back that /var/db/kernel.SHA256 names: its digest is ba7816bf8f01cfea414140de5dae2223b00361a396177a9cb410ff61f20015ad\n",
        ),
    ];
    for (cause, wanted) in rows {
        let text = told(alloc, b"reorder_kernel", &cause, &mut MemStore::new(alloc))?;
        assert_eq!(rt; text.strip_prefix("relink: "), Some(wanted));
    }
    Ok(())
}

#[test]
fn tells_flaws_of_records(rt: HostRuntime) -> Result<(), Fail> {
    let alloc = rt.alloc();
    let rows = [
        (RecordCause::Absent, "no such file\n"),
        (
            RecordCause::Flaw(RecordFault::Length { found: 64 }),
            "it has 64 bytes, and a record has 80, or 81 with the end of its line\n",
        ),
        (
            RecordCause::Flaw(RecordFault::Text { place: 8 }),
            "it doesn't begin with 'SHA256 (/bsd) = ': byte 9 is another one\n",
        ),
        (
            RecordCause::Flaw(RecordFault::Digit { place: 79 }),
            "byte 80 is no hexadecimal digit\n",
        ),
        (
            RecordCause::Flaw(RecordFault::End),
            "its last byte, behind the digits, isn't the end of its line\n",
        ),
    ];
    for (cause, wanted) in rows {
        let text = told(
            alloc,
            b"reorder_kernel",
            &Cause::Record(cause),
            &mut MemStore::new(alloc),
        )?;
        let part = before(&text, RECORD_FORM).and_then(|part| part.strip_prefix(
            "/var/db/kernel.SHA256: ",
        ));
        assert_eq!(rt; part, Some(wanted));
    }
    Ok(())
}

#[test]
fn tells_faults_of_the_kernels_kit(rt: HostRuntime) -> Result<(), Fail> {
    let alloc = rt.alloc();
    let text_name = Name::from_bytes(b"/usr/share/relink/kernel/link.conf")?;
    let mut store = MemStore::new(alloc);
    store.put(&text_name, KIT)?;
    store.put(
        &Name::from_bytes(b"/usr/share/relink/kernel/k.o")?,
        &object(alloc)?,
    )?;
    let machine = ReadFault {
        kind: ReadKind::Head(HeadFault::Machine),
        at: 18,
    };
    let from = FieldAt {
        input: 0,
        section: 2,
        index: 0,
    };
    let name = Listed::from_vec(Vec::from_slice(alloc, b"panic")?);
    let rows = [
        (Cause::Kit(KitCause::Absent(text_name)), "no such file\n"),
        (
            Cause::Kit(KitCause::Text(KitFault::Keyword { line: 4 })),
            "line 4: no such directive 'head'\n",
        ),
        (
            Cause::Kit(KitCause::Kind),
            "it is a library's kit ('kind library'), and a kernel's is wanted ('kind kernel')\n",
        ),
    ];
    for (cause, wanted) in rows {
        let text = told(alloc, b"reorder_kernel", &cause, &mut store)?;
        let part = text.strip_prefix("relink: /usr/share/relink/kernel/link.conf: ");
        assert_eq!(rt; part, Some(wanted));
    }
    let cause = Cause::Object {
        input: 0,
        line: 4,
        fault: ObjectCause::Elf(machine),
    };
    assert_eq!(rt;
        told(alloc, b"reorder_kernel", &cause, &mut store)?.as_str(),
        "relink: /usr/share/relink/kernel/k.o: not an x86-64 object (machine 62)\n"
    );
    let cause = Cause::Link(LinkFault::Undefined { name, from });
    assert_eq!(rt;
        told(alloc, b"reorder_kernel", &cause, &mut store)?.as_str(),
        "relink: undefined symbol 'panic', referenced by /usr/share/relink/kernel/k.o, section .text, offset 0x1\n"
    );
    Ok(())
}

#[test]
fn tells_which_file_stops_a_recovery(rt: HostRuntime) -> Result<(), Fail> {
    let alloc = rt.alloc();
    let (old, new) = (digest(OF_ABC)?, digest(OF_NOTHING)?);
    let other = [7; 32];
    let rows = [
        (
            (0, Some(other), None),
            "/bsd: it is neither the old file nor the new one that /var/db/relink.kernel.intent names\n",
        ),
        (
            (0, None, Some(new)),
            "/bsd: no such file, and /var/db/relink.kernel.intent names an old one and a new one\n",
        ),
        (
            (0, Some(old), None),
            "/bsd.relink: no such file, and /bsd is still as it was\n",
        ),
        (
            (0, Some(new), Some(other)),
            "/bsd.relink: it isn't the new file that /var/db/relink.kernel.intent names\n",
        ),
        (
            (1, None, Some(other)),
            "/var/db/kernel.map.relink: it isn't the new file that /var/db/relink.kernel.intent names\n",
        ),
        (
            (2, Some(other), None),
            "/var/db/relink.kernel.intent: the file of entry 2 is neither the old one nor the new one, or its temporary isn't the new one\n",
        ),
    ];
    let mut store = MemStore::new(alloc);
    store.put(&Name::from_bytes(b"/var/db/relink.kernel.intent")?, INTENT)?;
    for ((entry, target, temp), wanted) in rows {
        let cause = Cause::Foreign {
            slot: Slot::Kernel,
            entry,
            target,
            temp,
        };
        let text = told(alloc, b"recover", &cause, &mut store)?;
        assert_eq!(rt; before(&text, GIVE_UP), Some(wanted));
    }
    Ok(())
}

#[test]
fn tells_what_is_no_intent(rt: HostRuntime) -> Result<(), Fail> {
    let alloc = rt.alloc();
    let slot = Slot::Libs;
    let rows = [
        (
            Cause::Intent { slot, line: 0 },
            "it is no intent: it has more than 4096 bytes\n",
        ),
        (
            Cause::Intent { slot, line: 3 },
            "it is no intent of this slot: line 3 is wrong, or missing\n",
        ),
    ];
    for (cause, wanted) in rows {
        let text = told(alloc, b"recover", &cause, &mut MemStore::new(alloc))?;
        let part = before(
            &text,
            "relink: nothing of its batch was changed: if nothing of that batch is wanted, remove /var/db/relink.libs.intent\n",
        )
        .and_then(|part| part.strip_prefix("/var/db/relink.libs.intent: "));
        assert_eq!(rt; part, Some(wanted));
    }
    Ok(())
}

#[test]
fn tells_what_comes_next(rt: HostRuntime) -> Result<(), Fail> {
    let alloc = rt.alloc();
    let rows: [(&[u8], Cause, &str); 5] = [
        (
            b"reorder_kernel",
            Cause::Store,
            "relink: a call on the disk failed\nrelink: run 'relink recover' before anything else\n",
        ),
        (
            b"recover",
            Cause::Store,
            "relink: a call on the disk failed\nrelink: run 'relink recover' before anything else\n",
        ),
        (
            b"link|/kit",
            Cause::Store,
            "relink: a call on the disk failed\n",
        ),
        (
            b"reorder_kernel",
            Cause::Sink,
            "relink: all was done, but the line that says so could not be written to standard output\nrelink: the job was done all the same, and needn't be run again\n",
        ),
        (
            b"reorder_kernel",
            Cause::Kit(KitCause::Absent(Name::from_bytes(b"/usr/share/relink/kernel/link.conf")?)),
            "relink: /usr/share/relink/kernel/link.conf: no such file\nrelink: it works on the files below the folder in which it is started, /mnt: start it in /\n",
        ),
    ];
    for (line, cause, wanted) in rows {
        let words = words_of(alloc, line)?;
        let text = told_in(alloc, "/mnt", &words, &cause, &mut MemStore::new(alloc))?;
        assert_eq!(rt; text.as_str(), wanted);
    }
    Ok(())
}
