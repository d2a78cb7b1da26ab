// Objects whose contents are texts, from a source that lends them and from one that lends none.
use bridge_io::{MemSource, Source};
use bridge_text::{Id, Kind};
use git_batch::{BatchFault, BatchReader, Item, NoContents, read_into};
use git_store::GitStore;
use shared_text::{Text, again, keep};
use state_part::SharedPart;
use std::alloc::Global;
use std::test::Fail;

/// The id of a blob with a line that says hello, as `git hash-object` prints it.
const HELLO: &[u8] = b"ce013625030ba8dba906f756967f9e9ca394464a";

/// What stands behind the digits of that id, and the content that is read, or why none is.
type Row = (&'static [u8], Result<&'static [u8], BatchFault>);

fn rows(id: Id) -> [Row; 6] {
    [
        (b" blob 6\nhello\n\n", Ok(b"hello\n")),
        (b" blob 6\nhello\nx", Err(BatchFault::Line(54))),
        (b" blob 6\nhello\n", Err(BatchFault::Truncated(54))),
        (b" blob 6\nhell", Err(BatchFault::Truncated(52))),
        (b" blob 6\nhallo\n\n", Err(BatchFault::IdWrong(id, 0))),
        (b" blob 5\nhello\n", Err(BatchFault::IdWrong(id, 0))),
    ]
}

fn hello() -> Result<Id, Fail> {
    Ok(Id::from_hex(HELLO).ok_or("40 digits")?)
}

fn behind_hello(alloc: Global, rest: &[u8]) -> Result<Text, Fail> {
    let mut bytes = HELLO.to_vec(alloc)?;
    bytes.extend_from_slice(rest)?;
    Ok(keep(bytes)?)
}

fn copied(alloc: Global, text: &Text) -> Result<MemSource, Fail> {
    let bytes = text.as_slice().to_vec(alloc)?;
    Ok(MemSource::new(bytes, 0, Vec::new(alloc)))
}

// Whether the blob with this content was read, with a block of memory of its own or not, or else this fault is told.
fn is_told(
    read: &Result<(Item, Text), BatchFault>,
    is_lent: bool,
    want: &Result<&[u8], BatchFault>,
) -> bool {
    match (read, want) {
        (Ok((_, text)), Ok(content)) => {
            text.as_slice() == *content && text.is_unique() != is_lent
        }
        (Err(fault), Err(other)) => fault == other,
        (Ok(_), Err(_)) | (Err(_), Ok(_)) => false,
    }
}

// Whether the row is read from both sources.
fn is_read(alloc: Global, row: &Row) -> Result<bool, Fail> {
    let (rest, want) = row;
    let text = behind_hello(alloc, rest)?;
    let mut line = b"left".to_vec(alloc)?;
    let mut lending = SharedPart::new(again(&text)?);
    let lent = BatchReader::new().next_text(alloc, &mut lending, &NoContents, &mut line);
    let mut other = copied(alloc, &text)?;
    let own = BatchReader::new().next_text(alloc, &mut other, &NoContents, &mut line);
    Ok(is_told(&lent, true, want) && is_told(&own, false, want))
}

#[test]
fn contents_are_lent_where_they_can_be(rt: HostRuntime) -> Result<(), Fail> {
    let id = hello()?;
    for (i, row) in rows(id).iter().enumerate() {
        let is_read = is_read(rt.alloc(), row)?;
        assert!(rt; is_read, "at {i}");
    }
    Ok(())
}

// Whether a reader gives the blob, and then the end with an empty text.
fn ends<S: Source>(alloc: Global, src: &mut S) -> bool {
    let mut line = Vec::new(alloc);
    let mut reader = BatchReader::new();
    let is_blob = reader.next_text(alloc, src, &NoContents, &mut line).is_ok();
    match reader.next_text(alloc, src, &NoContents, &mut line) {
        Ok((item, text)) => is_blob && item == Item::End && text.is_empty(),
        Err(_) => false,
    }
}

#[test]
fn the_end_has_no_text(rt: HostRuntime) -> Result<(), Fail> {
    let text = behind_hello(rt.alloc(), b" blob 6\nhello\n\n")?;
    let mut other = copied(rt.alloc(), &text)?;
    let mut lending = SharedPart::new(text);
    assert!(rt; ends(rt.alloc(), &mut lending) && ends(rt.alloc(), &mut other));
    Ok(())
}

// Whether the store lends the blob and its content, which is the store's own or not, and nothing of another id.
fn lends(store: &GitStore, id: &Id, is_lent: bool) -> bool {
    let is_held = match store.shared_object(id) {
        Some((kind, text)) => {
            kind == Kind::Blob
                && text.as_slice() == b"hello\n".as_slice()
                && text.is_unique() != is_lent
        }
        None => false,
    };
    is_held && store.shared_object(&Id::NULL).is_none()
}

// Whether a store that reads the blob from a source lends its content.
fn is_stored<S: Source>(alloc: Global, src: &mut S, is_lent: bool) -> Result<bool, Fail> {
    let id = hello()?;
    match read_into(alloc, src, GitStore::new(alloc)) {
        Ok((store, _)) => Ok(lends(&store, &id, is_lent)),
        Err(_) => Ok(false),
    }
}

#[test]
fn a_store_lends_the_contents_that_were_lent_to_it(rt: HostRuntime) -> Result<(), Fail> {
    let text = behind_hello(rt.alloc(), b" blob 6\nhello\n\n")?;
    let mut lending = SharedPart::new(again(&text)?);
    let is_shared = is_stored(rt.alloc(), &mut lending, true)?;
    let mut other = copied(rt.alloc(), &text)?;
    let is_own = is_stored(rt.alloc(), &mut other, false)?;
    assert!(rt; is_shared && is_own);
    Ok(())
}
