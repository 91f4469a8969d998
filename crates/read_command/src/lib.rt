// Read commands: the bytes of a record or of a home address, on their way through the data chain.
#![tactic(auto)]

ghost use Rattle.std.specs.Prelude.{◌≡◌, ◌&&◌, ◌≤◌, eqb, length, take};
ghost use Rattle.faults.specs.FaultAt.{fault_from};
ghost use Rattle.pack.specs.Places.{record_from};
ghost use Rattle.drive.specs.Step as Step;
ghost use Rattle.position.specs.Standing.{drive_of, Standing};
ghost use Rattle.command.specs.Answer.{Kept, KeptWith, KeptAlways};
ghost use Rattle.read_bytes.specs.Bytes.{ReadsRecord};
ghost use Rattle.read_end.specs.ReadEnd.{PlaceLow};
ghost use Rattle.read_command.specs.Reads.{Formed, Begun, Ready, Lies, FaultTaken, FaultsInside, Ends, Carries, ReadsFaulted, ReadsBytes, plan_of, record_plan, Homes};

use channel::{Ccw, Location};
use command::{Answer, Check};
use drive::Read;
use faults::Listed;
use pack::Place;
use position::Drive;

// A read without fault, with the drive behind it. It has one caller, so that the compiler builds it in there.
fn plain(
    chain: &[u8],
    program: &[u8],
    l: Location,
    c: Ccw,
    bytes: &[u8],
    e: Drive,
    storage: &mut [u8],
) -> Answer
    requires ready { Ready chain.now program.now storage.old l c }
    requires bytes_len_bound { length bytes.now ≤ 16384 }
    ensures ends { let before = storage.old in
        let settled = Step.settled bytes.now (drive_of e) before in
        Ends chain.now program.now l c (length bytes.now) before settled result storage.new }
    ensures kept_with { KeptWith e result }
{
    read_end::settled(transfer::transfer(chain, program, l, c, bytes, storage), e)
}

// A read of a data area of length 0.
fn empty(
    chain: &[u8],
    program: &[u8],
    l: Location,
    c: Ccw,
    bytes: &[u8],
    e: Drive,
    storage: &mut [u8],
) -> Answer
    requires ready { Ready chain.now program.now storage.old l c }
    requires bytes_len_bound { length bytes.now ≤ 16384 }
    ensures ends { let before = storage.old in
        let excepted = Step.excepted bytes.now (drive_of e) before in
        Ends chain.now program.now l c (length bytes.now) before excepted result storage.new }
    ensures kept_always { KeptAlways result }
{
    read_end::excepted(transfer::transfer(chain, program, l, c, bytes, storage), e)
}

// Bytes at the front of `held`, as they arrive with a fault. Not inlined: into an area of the caller's own the compiler would copy by `memcpy`, which
// the archive does not call.
#[inline(never)]
fn arrive(held: &mut [u8], bytes: &[u8], f: Listed)
    requires bytes_in_bounds { length bytes.now ≤ length held.old }
    requires bytes_len_bound { length bytes.now ≤ 16384 }
    requires displacement_in_bounds { f.displacement.0 ≤ length bytes.now }
    ensures held_after { take (length bytes.now) held.new ≡ Step.arriving bytes.now (fault_from f) }
    ensures held_len_unchanged { length held.new ≡ length held.old }
{
    let n = bytes.len();
    copy::put(held, bytes);
    let displacement = f.displacement;
    read_bytes::arrive(&mut held[..n], displacement, f.first, f.second, f.third);
}

// A read that ends with a faulted data area. The bytes as they arrive stand in a local array: the image is only read.
fn read_faulted(
    chain: &[u8],
    program: &[u8],
    l: Location,
    c: Ccw,
    bytes: &[u8],
    x: Place,
    f: Listed,
    e: Drive,
    storage: &mut [u8],
) -> Answer
    requires ready { Ready chain.now program.now storage.old l c }
    requires bytes_len_bound { length bytes.now ≤ 16384 }
    requires displacement_in_bounds { f.displacement.0 ≤ length bytes.now }
    requires place_low { PlaceLow x }
    ensures reads_faulted { let before = storage.old in
        let after = storage.new in
        ReadsFaulted chain.now program.now l c bytes.now x f (drive_of e) before result after }
    ensures kept_always { KeptAlways result }
{
    let mut held = [0u8; 16384];
    let n = bytes.len();
    arrive(&mut held, bytes, f);
    let moved = transfer::transfer(chain, program, l, c, &held[..n], storage);
    read_end::faulted(moved, l, x, f, n, e)
}

// Whether a read takes a data area of length 0.
fn takes_empty(k: Read, x: Place) -> bool
    ensures { result ≡ (k.datas && eqb x.body x.next) }
{
    if !k.datas {
        return false;
    }
    x.body == x.next
}

// The fault of the data area that a read takes.
fn fault_taken(faults: &[u8], k: Read, x: Place) -> Option<Listed>
    ensures { FaultTaken faults.now k x result }
{
    if !k.datas {
        return None;
    }
    let a = x.at;
    faults::find_fault(faults, 0, a, x.r)
}

// A read of the record at a place, whose bytes these are, with the drive behind it.
fn read_bytes(
    chain: &[u8],
    program: &[u8],
    faults: &[u8],
    l: Location,
    c: Ccw,
    k: Read,
    x: Place,
    bytes: &[u8],
    e: Drive,
    storage: &mut [u8],
) -> Answer
    requires ready { Ready chain.now program.now storage.old l c }
    requires bytes_len_bound { length bytes.now ≤ 16384 }
    requires body_le_next { x.body ≤ x.next }
    requires faults_inside { FaultsInside faults.now k x (length bytes.now) }
    requires place_low { PlaceLow x }
    ensures reads_bytes { let before = storage.old in
        let after = storage.new in
        ReadsBytes chain.now program.now faults.now l c k x bytes.now (drive_of e) before result after }
    ensures kept_with { KeptWith e result }
{
    if takes_empty(k, x) {
        return empty(chain, program, l, c, bytes, e, storage);
    }
    match fault_taken(faults, k, x) {
        None => plain(chain, program, l, c, bytes, e, storage),
        Some(f) => read_faulted(chain, program, l, c, bytes, x, f, e, storage),
    }
}

// The same by the record's place in the image.
fn read_at(
    chain: &[u8],
    program: &[u8],
    image: &[u8],
    faults: &[u8],
    l: Location,
    c: Ccw,
    k: Read,
    x: Place,
    e: Drive,
    storage: &mut [u8],
) -> Answer
    requires ready { Ready chain.now program.now storage.old l c }
    requires begun { Begun chain.now program.now image.now faults.now }
    requires reads_record { ReadsRecord c.command k }
    requires lies { Lies image.now x }
    ensures carries { let before = storage.old in
        let plan = plan_of l c (drive_of e) before k (record_from image.now x) (drive_of e) in
        Carries chain.now program.now faults.now before plan result storage.new }
    ensures kept_with { KeptWith e result }
{
    read_bytes::hold(image);
    let from = read_bytes::first(x, k);
    let to = read_bytes::last(x, k);
    read_bytes(
        chain,
        program,
        faults,
        l,
        c,
        k,
        x,
        &image[from..to],
        e,
        storage,
    )
}

// A read of a record from where the drive stands: 06, 0E, 12 or 1E, and 86, 8E, 92 or 9E from where they reach.
pub fn read_record(
    chain: &[u8],
    program: &[u8],
    image: &[u8],
    faults: &[u8],
    l: Location,
    c: Ccw,
    k: Read,
    d: Drive,
    storage: &mut [u8],
) -> Answer
    requires ready { Ready chain.now program.now storage.old l c }
    requires begun { Begun chain.now program.now image.now faults.now }
    requires reads_record { ReadsRecord c.command k }
    requires standing { Standing image.now d }
    ensures carries { let before = storage.old in
        let plan = record_plan l c (drive_of d) before image.now k in
        Carries chain.now program.now faults.now before plan result storage.new }
    ensures kept { Kept image.now result }
{
    match d.take(image, k.just, k.datas) {
        None => command::refuse(Check::NotFound, l, c, d),
        Some((x, e)) => read_at(chain, program, image, faults, l, c, k, x, e, storage),
    }
}

// A read of the home address.
pub fn read_home(
    chain: &[u8],
    program: &[u8],
    image: &[u8],
    l: Location,
    c: Ccw,
    d: Drive,
    storage: &mut [u8],
) -> Answer
    requires ready { Ready chain.now program.now storage.old l c }
    requires formed { Formed image.now }
    requires standing { Standing image.now d }
    ensures homes { Homes chain.now program.now l c (drive_of d) image.now storage.old result storage.new }
    ensures kept { Kept image.now result }
{
    if !d.found {
        return command::refuse(Check::NotFound, l, c, d);
    }
    let a = d.at;
    let bytes = [
        0u8,
        (a.cylinder / 256) as u8,
        (a.cylinder % 256) as u8,
        (a.head / 256) as u8,
        (a.head % 256) as u8,
    ];
    let moved = transfer::transfer(chain, program, l, c, &bytes, storage);
    read_end::settled(moved, d.at_index(image))
}
