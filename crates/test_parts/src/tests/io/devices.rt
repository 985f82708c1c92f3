//! Which partitions a device makes: scripts of calls, with their answers.
use crate::tests::tables::{asked, cut, number, say_runs, size};
use foyer_device_page::error::Result;
use foyer_device_partition::io::device::{
    AnyDevice, CombinedDevice, CombinedDeviceBuilder, Device, DeviceBuilder, FileDeviceBuilder,
    FsDeviceBuilder, MemoryDeviceBuilder, NoopDeviceBuilder, PartialDeviceBuilder, Partition,
    Throttle,
};
use foyer_testing::rows::first_difference;
use foyer_testing::said::Said;
use std::alloc::Global;
use std::fs;
use std::fs::OpenOptions;
use std::test::Fail;

fn memory(rt: &HostRuntime, capacity: usize) -> Result<AnyDevice<Global>> {
    let device = MemoryDeviceBuilder::new(capacity).build(rt, rt.alloc(), 0)?;
    Ok(AnyDevice::Memory(device))
}

fn noop(rt: &HostRuntime, capacity: usize) -> Result<AnyDevice<Global>> {
    let device = NoopDeviceBuilder::new(capacity).build(rt, rt.alloc(), 0)?;
    Ok(AnyDevice::Noop(device))
}

// Makes a device in a file, with that capacity, or with none if it is no number.
fn file(rt: &HostRuntime, capacity: &str, path: &str) -> Result<AnyDevice<Global>> {
    let mut builder = FileDeviceBuilder::new(path);
    if let Ok(capacity) = capacity.parse::<usize>() {
        builder = builder.with_capacity(capacity);
    }
    let device = builder.build(rt, rt.alloc(), 0)?;
    Ok(AnyDevice::File(device))
}

// Makes a device in a directory, with that capacity, or with none if it is no number.
fn directory(rt: &HostRuntime, capacity: &str, path: &str) -> Result<AnyDevice<Global>> {
    let mut builder = FsDeviceBuilder::new(path);
    if let Ok(capacity) = capacity.parse::<usize>() {
        builder = builder.with_capacity(capacity);
    }
    let device = builder.build(rt, rt.alloc(), 0)?;
    Ok(AnyDevice::Fs(device))
}

// The device of some words: a kind, its capacity, and its path.
pub fn opened(rt: &HostRuntime, words: &str) -> Result<AnyDevice<Global>> {
    let (kind, rest) = cut(words);
    let (capacity, path) = cut(rest);
    match kind {
        "memory" => memory(rt, size(capacity)),
        "noop" => noop(rt, size(capacity)),
        "file" => file(rt, capacity, path),
        _ => directory(rt, capacity, path),
    }
}

fn combined(rt: &HostRuntime, capacity: &str) -> Result<CombinedDevice<AnyDevice<Global>, Global>> {
    let first = file(rt, capacity, "combined/a")?;
    let builder = CombinedDeviceBuilder::new(rt.alloc()).with_device(first)?;
    let second = file(rt, capacity, "combined/b")?;
    builder.with_device(second)?.build(rt, rt.alloc(), 0)
}

// The number of a new partition, and its size.
fn say_new<P: Partition + Copy>(said: &mut Said, made: Result<P>) {
    match made {
        Ok(partition) => {
            said.number("", u64::from(partition.id()));
            said.number(":", partition.size() as u64);
        }
        Err(error) => said.word(error.kind().name()),
    }
}

// Notes the file of an offset, and where the offset lies there.
fn say_at<D: Device>(said: &mut Said, device: &D, id: &str, offset: &str) {
    let id = id.parse::<u32>().unwrap_or(0);
    if (id as usize) < device.partitions() {
        let (file, place) = device.partition(id).translate(number(offset));
        said.number("", u64::from(file.0));
        said.number("+", place);
    } else {
        said.word("none");
    }
}

// Capacity, what is taken of it, what is free, and how many partitions there are.
fn say_room<D: Device>(said: &mut Said, device: &D) {
    said.number("", device.capacity() as u64);
    said.number("-", device.allocated() as u64);
    said.number("=", device.free() as u64);
    said.number("/", device.partitions() as u64);
}

fn say_names<D: Device>(said: &mut Said, alloc: Global, device: &D) {
    match device.files(alloc) {
        Ok(names) => {
            let mut before = "";
            for name in names.iter() {
                said.word(before);
                said.word(name.as_str());
                before = "&";
            }
        }
        Err(_) => said.miss(),
    }
}

const TEXT: &str = "less than a page";

fn say_bytes(said: &mut Said, rt: &HostRuntime, path: &str) {
    match fs::read(rt, path) {
        Ok(bytes) => say_runs(said, bytes.as_slice()),
        Err(_) => said.word("unread"),
    }
}

// Whether a file is that text and then zeros.
fn is_padded(rt: &HostRuntime, path: &str) -> bool {
    match fs::read(rt, path) {
        Ok(bytes) => {
            let text = TEXT.as_bytes();
            bytes.starts_with(text) && bytes.iter().skip(text.len()).all(|b| *b == 0)
        }
        Err(_) => false,
    }
}

fn say_len(said: &mut Said, rt: &HostRuntime, path: &str) {
    match fs::metadata(rt, path) {
        Ok(found) => said.number("", found.len()),
        Err(_) => said.word("none"),
    }
}

// A file's length, then its path.
fn is_cut(rt: &HostRuntime, words: &str) -> bool {
    let (len, path) = cut(words);
    match OpenOptions::new().write(true).open(rt, path) {
        Ok(file) => file.set_len(number(len)).is_ok(),
        Err(_) => false,
    }
}

// What is done at a path, and whether it could be.
pub fn say_path(said: &mut Said, rt: &HostRuntime, word: &str, path: &str) {
    match word {
        "mkdir" => said.flag("", fs::create_dir(rt, path).is_ok()),
        "rmdir" => said.flag("", fs::remove_dir(rt, path).is_ok()),
        "clear" => said.flag("", fs::remove_dir_all(rt, path).is_ok()),
        "exists" => said.flag("", fs::exists(rt, path).unwrap_or(true)),
        "write" => said.flag("", fs::write(rt, path, TEXT).is_ok()),
        "padded" => said.flag("", is_padded(rt, path)),
        "cut" => said.flag("", is_cut(rt, path)),
        "len" => say_len(said, rt, path),
        "bytes" => say_bytes(said, rt, path),
        _ => said.word("unknown"),
    }
}

fn say_call<D: Device>(said: &mut Said, rt: &HostRuntime, device: &mut D, call: &str) {
    let (word, rest) = cut(call);
    let (first, second) = cut(rest);
    match word {
        "new" => say_new(said, device.create_partition(rt, size(first))),
        "at" => say_at(said, device, first, second),
        "room" => say_room(said, device),
        "files" => say_names(said, rt.alloc(), device),
        _ => say_path(said, rt, word, rest),
    }
}

fn say_calls<D: Device>(said: &mut Said, rt: &HostRuntime, device: &mut D, calls: &str) {
    for call in calls.split(", ") {
        said.word(" ");
        say_call(said, rt, device, call);
    }
}

// Makes calls of a part of the device. The part has that capacity, or the device's capacity if that is no number.
fn say_part(
    said: &mut Said,
    rt: &HostRuntime,
    device: &mut AnyDevice<Global>,
    capacity: &str,
    calls: &str,
) {
    let mut builder = PartialDeviceBuilder::new(device);
    if let Ok(capacity) = capacity.parse::<usize>() {
        builder = builder.with_capacity(capacity);
    }
    match builder.build(rt, rt.alloc(), 0) {
        Ok(mut part) => say_calls(said, rt, &mut part, calls),
        Err(error) => {
            said.word(" ");
            said.word(error.kind().name());
        }
    }
}

// Calls of the device, and between them those of parts of it.
fn say_device(said: &mut Said, rt: &HostRuntime, device: &mut AnyDevice<Global>, script: &str) {
    for calls in script.split(" > ") {
        match calls.split_once(": ") {
            Some((part, calls)) => say_part(said, rt, device, cut(part).1, calls),
            None => say_calls(said, rt, device, calls),
        }
    }
}

fn say_opened(said: &mut Said, rt: &HostRuntime, opening: &str, script: &str) -> Result<()> {
    let mut device = opened(rt, opening)?;
    say_device(said, rt, &mut device, script);
    Ok(())
}

fn say_combined(said: &mut Said, rt: &HostRuntime, capacity: &str, calls: &str) -> Result<()> {
    let mut device = combined(rt, capacity)?;
    say_calls(said, rt, &mut device, calls);
    Ok(())
}

fn say_row(said: &mut Said, rt: &HostRuntime, opening: &str, script: &str) -> Result<()> {
    let (kind, capacity) = cut(opening);
    match kind {
        "combined" => say_combined(said, rt, capacity, script),
        _ => say_opened(said, rt, opening, script),
    }
}

fn rows_of(rt: &HostRuntime, rows: &str) -> Result<String> {
    let mut said = Said::new(rt.alloc());
    for row in rows.lines() {
        let asked = asked(row);
        said.word(asked);
        if let Some((opening, script)) = asked.split_once(" < ") {
            said.word(" |");
            if let Err(error) = say_row(&mut said, rt, opening, script) {
                said.word(" ");
                said.word(error.kind().name());
            }
        }
        said.word("\n");
    }
    said.text()
}

// Names, and below each its devices, what they are asked, and what they answer: `new` the number and the size of a partition,
// `at` the file and the place of an offset of one, `room` capacity-taken=free/partitions. Behind `>` stands a part of the device.
const ROWS: &str = "partitions of no whole pages are refused
memory 16384 < new 0, new 100, new 20480, room | Config Config NoSpace 16384-0=16384/0
partitions in memory lie one behind another
memory 20000 < room, new 4096, new 8192, at 1 5, at 1 8192, room | 16384-0=16384/0 0:4096 1:8192 0+4101 0+12288 16384-12288=4096/2
a part of a device has a capacity of its own
memory 16384 < new 4096 > part 8192: new 8192, at 0 0, new 4096, room > room > part -: room, new 8192 > part 20480: room | 0:4096 0:8192 0+4096 NoSpace 8192-8192=0/1 16384-12288=4096/2 16384-0=16384/0 NoSpace Config
a noop device takes any partition
noop 4096 < new 100, new 1099511627776, at 0 77, room | Config 0:1099511627776 0+0 4096-1099511627776=0/1
combined devices are asked one after another
noop 0 < mkdir combined | yes
combined 16384 < room, new 12288, new 8192, new 4096, at 0 0, at 1 0, at 2 0, room, new 8192, new 4096, new 100, room, files, clear combined | 32768-0=32768/0 0:12288 1:8192 2:4096 0+0 1+0 1+8192 32768-24576=8192/3 NoSpace NoSpace Config 32768-24576=8192/3 combined/a&combined/b yes
a directory with spaces has a file for each partition
dir 10000 my cache/of two parts < room, write my cache/of two parts/foyer-storage-direct-fs-00000000, new 4096, at 0 9, len my cache/of two parts/foyer-storage-direct-fs-00000000, padded my cache/of two parts/foyer-storage-direct-fs-00000000, new 8192, new 4096, at 1 0, files | 8192-0=8192/0 yes 0:4096 0+9 4096 yes NoSpace 1:4096 1+0 my cache/of two parts/foyer-storage-direct-fs-00000000&my cache/of two parts/foyer-storage-direct-fs-00000001
dir 8192 my cache/of two parts < new 8192, len my cache/of two parts/foyer-storage-direct-fs-00000000, clear my cache | 0:8192 8192 yes
devices over files are refused where they cannot be made
file - unmade < room | Config
dir - unmade < room | Config
noop 0 < exists unmade, mkdir refused, write refused/file | no yes yes
dir 4096 refused/file < room | Io
dir 4096 refused/file/below < room | Io
file 4096 refused/missing/file < room | Io
file 4096 refused < room | Io
dir 8192 refused < mkdir refused/foyer-storage-direct-fs-00000000, new 4096, room, rmdir refused/foyer-storage-direct-fs-00000000, new 4096, clear refused | yes Io 8192-0=8192/0 yes 0:4096 yes
the file of a device gets the rounded capacity
noop 0 < mkdir rounded | yes
file 10000 rounded/file < len rounded/file, new 4096, new 4096, at 1 1, len rounded/file, new 4096 | 8192 0:4096 1:4096 0+4097 8192 NoSpace
file 4096 rounded/file < room, len rounded/file, clear rounded | 4096-0=4096/0 4096 yes
a device of any kind is the device of that kind
memory 16384 < new 4096, new 8192, at 1 1, room, new 8192 | 0:4096 1:8192 0+4097 16384-12288=4096/2 NoSpace
noop 0 < new 8192, at 0 9 | 0:8192 0+0
";

#[test]
fn each_device_makes_its_partitions(rt: HostRuntime) -> std::result::Result<(), Fail> {
    let answers = rows_of(&rt, ROWS)?;
    assert_eq!(rt; first_difference(answers.as_str(), ROWS), None);
    Ok(())
}

#[test]
fn limits_and_the_moment_of_building_are_kept(rt: HostRuntime) -> std::result::Result<(), Fail> {
    let limits = Throttle::new().with_read_iops(7);
    let builder = MemoryDeviceBuilder::new(0).with_throttle(limits);
    let device = builder.build(&rt, rt.alloc(), 3)?;
    assert!(rt; *device.throttle() == limits && device.built_at() == 3);
    Ok(())
}

#[test]
fn a_builder_prints_its_name(rt: HostRuntime) -> std::result::Result<(), Fail> {
    let builder: CombinedDeviceBuilder<AnyDevice<Global>, Global> = CombinedDeviceBuilder::new(
        rt.alloc(),
    );
    let text = format!(in rt.alloc(); "{builder:?}")?;
    assert!(rt; text.as_str() == "CombinedDeviceBuilder");
    Ok(())
}
