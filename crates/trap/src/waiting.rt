// Who is stuck behind whom, for C and Rust. The numbers of a report go into three words that are lent.
ghost use Rattle.trap.specs.Reported.{StuckTold, RingsTold};

// The processes stuck one behind the other from `process` on, into the room. The report: the number, the count, 1 for a ring.
#[unsafe(no_mangle)]
pub extern "C" fn monitor_stuck(
    table: &[u16],
    room: &mut [u16],
    process: u16,
    report: &mut [u16; 3],
)
    ensures { StuckTold table.now room.old room.new process report.old report.new }
{
    let chain = stuck::stuck(table, room, process);
    report[0] = chain.number;
    report[1] = chain.count;
    report[2] = chain.ring as u16;
}

// The rings of the station, into the room, a 0 behind each. The report: the number, how many rings, how many words.
#[unsafe(no_mangle)]
pub extern "C" fn monitor_rings(table: &[u16], room: &mut [u16], report: &mut [u16; 3])
    ensures { RingsTold table.now room.old room.new report.old report.new }
{
    let rings = stuck::rings(table, room);
    report[0] = rings.number;
    report[1] = rings.rings;
    report[2] = rings.words;
}
