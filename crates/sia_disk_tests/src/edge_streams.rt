//! Files and standard streams as sources and sinks.

use sia_edge::{
    Did, Ending, FileSink, FileSource, Got, Put, Sink, Source, StdSink, WriteFailed, read_to_bound,
    write_all,
};
use sia_encoding::Blob;
use std::test::Fail;
use std::{fs, process};

const OLD: &[u8] = b"what it held before";

/// A name in the folder of this process's tests.
fn path(rt: &HostRuntime, name: &str) -> Result<String, Fail> {
    Ok(format!(in rt.alloc(); "/tmp/sia_disk_tests_{}_{name}", process::id(rt.process()))?)
}

#[test]
fn what_a_source_gives(rt: HostRuntime) -> Result<(), Fail> {
    let path = path(&rt, "source")?;
    fs::write(&rt, path.as_str(), b"0123".as_slice())?;
    let cases: [(&[u8], Got); 6] = [
        (path.as_str().as_bytes(), Got::Bytes(4)),
        (b"/dev/null", Got::End),
        (b"/tmp", Got::Failed),
        (b"/nowhere/at/all", Got::Failed),
        (b"\xFF", Got::Failed),
        (b"", Got::Failed),
    ];
    for (name, got) in cases {
        let mut source = FileSource::open(&rt, name);
        assert_eq!(rt; source.read(&mut [0; 9]), got);
    }
    fs::remove_file(&rt, path.as_str())?;
    Ok(())
}

#[test]
fn what_a_sink_takes(rt: HostRuntime) -> Result<(), Fail> {
    let path = path(&rt, "sink")?;
    let cases: [(&[u8], Put, Did); 7] = [
        (path.as_str().as_bytes(), Put::Taken(4), Did::Done),
        (b"/dev/null", Put::Taken(4), Did::Done),
        (b"/dev/full", Put::Failed, Did::Done),
        (b"/tmp", Put::Failed, Did::Failed),
        (b"/nowhere/at/all", Put::Failed, Did::Failed),
        (b"\xFF", Put::Failed, Did::Failed),
        (b"", Put::Failed, Did::Failed),
    ];
    for (name, put, end) in cases {
        let mut sink = FileSink::create(&rt, name);
        assert_eq!(rt; sink.write(b"0123"), put);
        assert_eq!(rt; sink.finish(), end);
    }
    fs::remove_file(&rt, path.as_str())?;
    Ok(())
}

#[test]
fn a_sinks_file_keeps_what_it_held_until_the_first_write_or_the_end(
    rt: HostRuntime,
) -> Result<(), Fail> {
    let path = path(&rt, "outbox")?;
    let cases: [(&[u8], &[u8], bool, &[u8]); 4] = [
        (b"", b"", false, OLD),
        (b"", b"", true, b""),
        (b"one", b"", false, b"one"),
        (b"one", b"two", true, b"onetwo"),
    ];
    for (first, second, ends, held) in cases {
        fs::write(&rt, path.as_str(), OLD)?;
        let mut sink = FileSink::create(&rt, path.as_str().as_bytes());
        assert_eq!(rt; write_all(&mut sink, first), Ok(()));
        assert_eq!(rt; write_all(&mut sink, second), Ok(()));
        if ends {
            assert_eq!(rt; sink.finish(), Did::Done);
        }
        assert_eq!(rt; fs::read(&rt, path.as_str())?.as_slice(), held);
    }
    fs::remove_file(&rt, path.as_str())?;
    Ok(())
}

#[test]
fn a_file_is_written_and_read_back(rt: HostRuntime) -> Result<(), Fail> {
    let path = path(&rt, "back")?;
    let mut sink = FileSink::create(&rt, path.as_str().as_bytes());
    assert_eq!(rt; write_all(&mut sink, b"0123456789"), Ok(()));
    let mut source = FileSource::open(&rt, path.as_str().as_bytes());
    let mut out = Blob::new(rt.alloc());
    assert_eq!(rt; read_to_bound(&mut source, &mut out, 10), Ending::Whole);
    assert_eq!(rt; out.as_slice(), b"0123456789".as_slice());
    fs::remove_file(&rt, path.as_str())?;
    Ok(())
}

#[test]
fn the_standard_streams_take_bytes(rt: HostRuntime) {
    let mut output = StdSink::output(rt.stdout());
    let mut error = StdSink::error(rt.stderr());
    assert_eq!(rt; write_all(&mut output, b"output\n"), Ok(()));
    assert_eq!(rt; write_all(&mut error, b"error\n"), Ok(()));
    assert_eq!(rt; libc::close(2), 0);
    assert_eq!(rt; write_all(&mut error, b"error\n"), Err(WriteFailed));
}
