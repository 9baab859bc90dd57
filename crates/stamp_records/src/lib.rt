// A stamp record for each literal in a slice that the caller lends, and the two columns of numbers that the passes work on: the copies between them.
#![tactic(auto)]

ghost use Rattle.std.specs.Prelude.{◌≡◌, ◌+◌, ◌*◌, ◌/◌, ◌<◌, ◌≤◌, min, length, take};
ghost use Rattle.stamp_records.specs.Records.{record_at, times_put, links_put, times_in, links_in, records_in, over, times_of, links_of, packed, held_times, held_links};

// The stamps of one literal.
#[repr(C)]
#[derive(Clone, Copy)]
pub struct StampRecord {
    pub discovery: u32,
    pub finish: u32,
    pub parent: i32,
    pub start: i32,
}

// The columns by value, with the numbers of `count` records; the places after those are 0. A function that takes them so needs no loan of records.
#[derive(Clone, Copy)]
pub struct Columns {
    pub times: [u32; 4096],
    pub links: [i32; 4096],
    pub count: usize,
}

impl Columns {
    // The times of the records that the columns hold.
    pub fn times(&self) -> &[u32]
        requires { self.now.count ≤ 2048 }
        ensures { result.now ≡ held_times self.now }
    {
        &self.times[..2 * self.count]
    }

    // The links of the same records.
    pub fn links(&self) -> &[i32]
        requires { self.now.count ≤ 2048 }
        ensures { result.now ≡ held_links self.now }
    {
        &self.links[..2 * self.count]
    }
}

// The record that the columns have at i.
fn record_at(times: &[u32], links: &[i32], i: usize) -> StampRecord
    requires { (i < 2048) × (2 * i + 1 < length times.now) × (2 * i + 1 < length links.now) }
    ensures { result ≡ record_at times.now links.now i }
{
    StampRecord {
        discovery: times[2 * i],
        finish: times[2 * i + 1],
        parent: links[2 * i],
        start: links[2 * i + 1],
    }
}

// The columns with a record at i.
fn put_record(times: &mut [u32], links: &mut [i32], i: usize, r: StampRecord)
    requires { (i < 2048) × (2 * i + 1 < length times.old) × (2 * i + 1 < length links.old) }
    ensures { (times.new ≡ times_put times.old i r) × (links.new ≡ links_put links.old i r) }
{
    times[2 * i] = r.discovery;
    times[2 * i + 1] = r.finish;
    links[2 * i] = r.parent;
    links[2 * i + 1] = r.start;
}

// The first n records, from the columns.
fn pack(s: &mut [StampRecord], times: &[u32], links: &[i32], n: usize)
    requires { (n ≤ 2048) × (n ≤ length s.old) × (2 * n ≤ length times.now) × (2 * n ≤ length links.now) }
    ensures { s.new ≡ over (take n (records_in times.now links.now)) s.old }
{
    for (i, record) in s[..n].iter_mut().enumerate() {
        *record = record_at(times, links, i);
    }
}

// The columns, from the first n records.
fn unpack(s: &[StampRecord], times: &mut [u32], links: &mut [i32], n: usize)
    requires { (n ≤ 2048) × (n ≤ length s.now) × (4096 ≤ length times.old) × (4096 ≤ length links.old) }
    ensures { (times.new ≡ over (times_in (take n s.now)) times.old) × (links.new ≡ over (links_in (take n s.now)) links.old) }
{
    for (i, record) in s[..n].iter().enumerate() {
        put_record(times, links, i, *record);
    }
}

// The columns of the lent records: of the first 2,048, or of all if there are fewer.
pub fn columns_of(s: &[StampRecord]) -> Columns
    ensures { (result.count ≡ min 2048 (length s.now)) × (held_times result ≡ times_of s.now) × (held_links result ≡ links_of s.now) }
{
    let count = s.len().min(2048);
    let mut times = [0u32; 4096];
    let mut links = [0i32; 4096];
    unpack(s, &mut times, &mut links, count);
    Columns {
        times,
        links,
        count,
    }
}

// The records that two columns hold, over the first of the lent ones; later ones stay. The columns are those that `columns_of` made of this slice.
pub fn put_columns(s: &mut [StampRecord], times: &[u32], links: &[i32])
    requires { (length links.now ≡ length times.now) × (length times.now ≤ 2 * length s.old) × (length times.now ≤ 4096) }
    ensures { s.new ≡ packed times.now links.now s.old }
{
    pack(s, times, links, times.len() / 2);
}
