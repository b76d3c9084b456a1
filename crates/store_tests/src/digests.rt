use kl_base::Name;
use kl_digest::{RecordFault, digest_file, read_record, record_text, sha256};
use kl_store::{Failed, Store};
use std::test::Fail;

/// The SHA-256 digest of the bytes `abc`, in hexadecimal digits (FIPS 180-4, the first example of SHA-256).
const ABC: &[u8] = b"ba7816bf8f01cfea414140de5dae2223b00361a396177a9cb410ff61f20015ad";

const RECORD: &[u8; 81] =
    b"SHA256 (/bsd) = ba7816bf8f01cfea414140de5dae2223b00361a396177a9cb410ff61f20015ad\n";

#[test]
fn digests_and_records(rt: HostRuntime) -> Result<(), Fail> {
    let digest = sha256(b"abc");
    assert_eq!(rt; hex::decode(rt.alloc(), ABC)?.as_slice(), digest.as_slice());
    assert_eq!(rt; &record_text(&digest), RECORD);
    assert_eq!(rt; read_record(RECORD), Ok(digest));
    assert_eq!(rt; read_record(&RECORD[..80]), Ok(digest));
    let mixed = b"SHA256 (/bsd) = BA7816bf8f01cfea414140DE5dae2223b00361a396177a9cb410ff61f20015ad";
    assert_eq!(rt; read_record(mixed), Ok(digest));
    Ok(())
}

/// What a record is read as that has another byte at the place.
fn changed(place: usize, byte: u8) -> Result<[u8; 32], RecordFault> {
    let mut text = *RECORD;
    if place < 81 {
        text[place] = byte;
    }
    read_record(&text)
}

#[test]
fn tells_the_first_fault(rt: HostRuntime) -> Result<(), Fail> {
    let found = [0, 79];
    for count in found {
        assert_eq!(rt;
            read_record(&RECORD[..count]),
            Err(RecordFault::Length {
                found: count as u64
            })
        );
    }
    let cases = [
        (0, b's', RecordFault::Text { place: 0 }),
        (15, b'=', RecordFault::Text { place: 15 }),
        (16, b'g', RecordFault::Digit { place: 16 }),
        (79, b'/', RecordFault::Digit { place: 79 }),
        (80, b' ', RecordFault::End),
    ];
    for (place, byte, fault) in cases {
        assert_eq!(rt; changed(place, byte), Err(fault), "at {place}");
    }
    Ok(())
}

/// A store with one file, of the bytes `abc` under `/abc`, that notes what is asked of it.
#[derive(Drop)]
struct OneFile {
    /// The length of the longest buffer that a read was to fill.
    longest: u64,
    /// The furthest place at which such a buffer ended.
    end: u64,
}

impl Store for OneFile {
    ghost use Rattle.kl_store.specs.Meaning.{untold};

    ghost meaning = { λ _. untold };

    ghost faults = { λ _. 0 };

    fn size(&mut self, name: &Name) -> Result<Option<u64>, Failed> {
        Ok((name.bytes() == b"/abc".as_slice()).then_some(3))
    }

    fn read(&mut self, _name: &Name, at: u64, buf: &mut [u8]) -> Result<usize, Failed> {
        let wanted = buf.len() as u64;
        self.longest = self.longest.max(wanted);
        self.end = self.end.max(at.saturating_add(wanted));
        let rest = &b"abc"[(at.min(3)) as usize..];
        let count = rest.len().min(buf.len());
        buf[..count].copy_from_slice(&rest[..count]);
        Ok(count)
    }

    fn create(&mut self, _name: &Name) -> Result<(), Failed> {
        Ok(())
    }

    fn append(&mut self, _name: &Name, _bytes: &[u8]) -> Result<(), Failed> {
        Ok(())
    }

    fn rename(&mut self, _from: &Name, _to: &Name) -> Result<bool, Failed> {
        Ok(false)
    }

    fn remove(&mut self, _name: &Name) -> Result<bool, Failed> {
        Ok(false)
    }

    fn settle(&mut self) -> Result<(), Failed> {
        Ok(())
    }
}

#[test]
fn digests_a_file_in_pieces(rt: HostRuntime) -> Result<(), Fail> {
    let name = Name::from_bytes(b"/abc").ok().ok_or("a name")?;
    let absent = Name::from_bytes(b"/abd").ok().ok_or("a name")?;
    let mut store = OneFile { longest: 0, end: 0 };
    let mut buf = [0; 2];
    assert_eq!(rt;
        digest_file(&mut store, &name, &mut buf),
        Ok(Some(sha256(b"abc")))
    );
    assert_eq!(rt; (store.longest, store.end), (2, 3));
    assert_eq!(rt; digest_file(&mut store, &absent, &mut buf), Ok(None));

    // A buffer that is longer than the file is filled no further.
    let mut store = OneFile { longest: 0, end: 0 };
    let mut buf = [0; 64];
    assert_eq!(rt;
        digest_file(&mut store, &name, &mut buf),
        Ok(Some(sha256(b"abc")))
    );
    assert_eq!(rt; (store.longest, store.end), (3, 3));
    Ok(())
}
