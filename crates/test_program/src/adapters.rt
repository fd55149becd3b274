//! The source, the store and the sink over the real files of a folder.

use outside::{Failed, FolderStore, Sink, Source, StdinSource, StdoutSink, StoreStop, TraceStore};
use std::fs;
use std::fs::File;

#[test]
fn a_folder_keeps_files_open_and_grows_them(rt: HostRuntime) {
    let folder = rt.clone().expect(&rt, "runtime");
    let mut store = FolderStore::new(rt.alloc(), folder);
    let first = store.create("folder-first").expect(&rt, "create");
    let second = store.create("folder-second").expect(&rt, "create");
    let one = store.append(first, b"one");
    let other = store.append(second, b"other");
    let more = store.append(first, b" more");
    let nowhere = store.create("no-folder/file");
    assert!(rt; one == Ok(3) && other == Ok(5) && more == Ok(5));
    assert!(rt; nowhere == Err(StoreStop::Failed));
    let text = fs::read_to_string(&rt, "folder-first").expect(&rt, "read");
    assert!(rt; text.as_str() == "one more");
    fs::remove_file(&rt, "folder-first").expect(&rt, "remove");
    fs::remove_file(&rt, "folder-second").expect(&rt, "remove");
}

#[test]
fn a_source_gives_a_reader_to_its_end(rt: HostRuntime) {
    fs::write(&rt, "source-file", "four").expect(&rt, "write");
    let readable = File::open(&rt, "source-file").expect(&rt, "open");
    let mut source = StdinSource::new(readable);
    let mut buffer = [0u8; 3];
    let front = source.read(&mut buffer);
    assert!(rt; front == Ok(3) && buffer == *b"fou");
    let rest = source.read(&mut buffer);
    let end = source.read(&mut buffer);
    assert!(rt; rest == Ok(1) && end == Ok(0));
    let unreadable = fs::create(&rt, "source-file").expect(&rt, "create");
    let failed = StdinSource::new(unreadable).read(&mut buffer);
    assert!(rt; failed == Err(Failed));
    fs::remove_file(&rt, "source-file").expect(&rt, "remove");
}

#[test]
fn a_sink_hands_bytes_to_its_writer(rt: HostRuntime) {
    let writable = fs::create(&rt, "sink-file").expect(&rt, "create");
    let written = StdoutSink::new(writable).write(b"events 0\n");
    let text = fs::read_to_string(&rt, "sink-file").expect(&rt, "read");
    assert!(rt; written == Ok(9) && text.as_str() == "events 0\n");
    let unwritable = File::open(&rt, "sink-file").expect(&rt, "open");
    let failed = StdoutSink::new(unwritable).write(b"drops");
    assert!(rt; failed == Err(StoreStop::Failed));
    fs::remove_file(&rt, "sink-file").expect(&rt, "remove");
}
