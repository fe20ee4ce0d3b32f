// The report of a block: it is built, and its lines are those of an accepted block or the one line of a no.
ghost use Rattle.std.specs.Prelude.{◌≡◌, ◌+◌, ◌*◌, ◌<◌, ◌≤◌, length};
ghost use Rattle.refusal.specs.Grounds.{number_of, place_of};
ghost use Rattle.ports.specs.Block.{size, block, size_of, tiles, Sized};
ghost use Rattle.ports.specs.Lengths.{ports, ports_per_tile, table_length, bits_length, settings_length, settings_total, list_length, tile_numbers};
ghost use Rattle.routing.specs.LogicTile.{logic_tile};
ghost use Rattle.routing.specs.Rules.{TableRules};
ghost use Rattle.config.specs.Blocks.{fault_place, decoded, tiles_of};
ghost use Rattle.texts.specs.Pieces.{placed};
ghost use Rattle.lines.specs.Lines.{answer_line};
ghost use Rattle.block.specs.Lengths.{room_lent, build_lent, BuildLong};
ghost use Rattle.frames.specs.Whole.{Small};
ghost use Rattle.reporting.specs.Report.{out_length, lines_of, accepted_lines, block_lines};

use lines::listing;
use lines::text::answer_line;
use netlist::row::ROW_LENGTH;
use ports::lengths::{PORTS_PER_TILE, SETTINGS_LENGTH};
use ports::size::Block;
use refusal::Refusal;
use texts::put;

// Room for the largest block of a program, 3 by 3: numbers for its ports, its rows and its settings.
const PORTS: usize = 9 * PORTS_PER_TILE as usize;

const ROWS: usize = ROW_LENGTH * PORTS;

const SETTINGS: usize = 9 * SETTINGS_LENGTH;

// Room of zeros. The promise gives the length alone, which is what lending a part of it asks for.
fn rows_room() -> [u16; ROWS]
    ensures { list_length (block 3 3 0) ≡ length result }
{
    [0; ROWS]
}

fn settings_room() -> [u16; SETTINGS]
    ensures { settings_total (size 3 3) ≡ length result }
{
    [0; SETTINGS]
}

fn ports_room() -> [u16; PORTS]
    ensures { ports (block 3 3 0) ≡ length result }
{
    [0; PORTS]
}

// The one line of a no.
pub fn put_refusal(r: Refusal, out: &mut [u8]) -> usize
    requires { length out.old ≡ out_length }
    ensures next { result ≡ 0 + length (answer_line (number_of r) (place_of r)) }
    ensures out { out.new ≡ placed 0 (answer_line (number_of r) (place_of r)) out.old }
{
    let line = answer_line(refusal::number(r), refusal::place(r));
    put(out, 0, &line)
}

// The lines of an accepted block of n tiles, from its map of sources and its settings.
fn put_lines(sources: &[u16], st: &[u16], n: usize, out: &mut [u8]) -> usize
    requires { (n ≤ 9) × (length sources.now ≡ ports_per_tile * n) × (length st.now ≡ settings_length * n) × (length out.old ≡ out_length) }
    ensures next { result ≡ 0 + length (lines_of sources.now st.now n) }
    ensures out { out.new ≡ placed 0 (lines_of sources.now st.now n) out.old }
{
    let cells = listing::put_switches(sources, out, 0);
    let last = listing::put_cells(st, n, out, cells);
    let line = answer_line(0, 0);
    put(out, last, &line)
}

// The lines of a block that building accepted.
fn put_accepted(
    b: Block,
    table: &[u16],
    bits: &[u64],
    settings: &mut [u16],
    wires: &mut [u16],
    sources: &mut [u16],
    out: &mut [u8],
) -> usize
    requires sized { Sized b × (tiles b ≤ 9) × TableRules logic_tile table.now ×
        (logic_tile.positions * tiles b ≤ fault_place table.now (tiles_of bits.now) (tiles b)) }
    requires bits_len { (length bits.now ≡ tile_numbers * tiles b) × (length settings.old ≡ settings_length * tiles b) ×
        (length wires.old ≡ ports b) × (length sources.old ≡ ports b) × (length out.old ≡ out_length) }
    ensures next { result ≡ 0 + length
        (accepted_lines b table.now (decoded table.now (tiles_of bits.now) (tiles b))) }
    ensures out { out.new ≡ placed 0
        (accepted_lines b table.now (decoded table.now (tiles_of bits.now) (tiles b)))
        out.old }
{
    let n = (b.h * b.w) as usize;
    config::blocks::decode_block(table, bits, settings, n);
    wiring::fill_wires(b, wires);
    drivers::sources::find_sources(b, table, settings, wires, sources);
    put_lines(sources, settings, n, out)
}

// The report of a block's bits, in room of the exact lengths.
fn put_built(
    b: Block,
    table: &[u16],
    bits: &[u64],
    list: &mut [u16],
    settings: &mut [u16],
    wires: &mut [u16],
    sources: &mut [u16],
    rows: &mut [u16],
    marks: &mut [u16],
    queue: &mut [u16],
    out: &mut [u8],
) -> usize
    requires small { Small b.w b.h × (length out.old ≡ out_length) }
    requires build_long { BuildLong b (build_lent table.now bits.now settings.old
        (room_lent list.old wires.old sources.old rows.old marks.old queue.old)) }
    ensures next { result ≡ 0 + length (block_lines b table.now (tiles_of bits.now)) }
    ensures out { out.new ≡ placed 0 (block_lines b table.now (tiles_of bits.now)) out.old }
{
    let built = block::build(
        b, table, bits, list, settings, wires, sources, rows, marks, queue,
    );
    match built {
        Err(r) => put_refusal(r, out),
        Ok(rows_listed) => { put_accepted(b, table, bits, settings, wires, sources, out) }
    }
}

// The report of a block's bits.
pub fn put_block(b: Block, table: &[u16], bits: &[u64], out: &mut [u8]) -> usize
    requires { Small b.w b.h × (length bits.now ≡ bits_length (size_of b)) × (length table.now ≡ table_length) ×
        (length out.old ≡ out_length) }
    ensures next { result ≡ 0 + length (block_lines b table.now (tiles_of bits.now)) }
    ensures out { out.new ≡ placed 0 (block_lines b table.now (tiles_of bits.now)) out.old }
{
    let tiles = (b.h * b.w) as usize;
    let n = PORTS_PER_TILE as usize * tiles;
    let numbers = ROW_LENGTH * n;
    let s = SETTINGS_LENGTH * tiles;
    let mut list = rows_room();
    let mut rows = rows_room();
    let mut settings = settings_room();
    let mut wires = ports_room();
    let mut sources = ports_room();
    let mut marks = ports_room();
    let mut queue = ports_room();
    put_built(
        b,
        table,
        bits,
        &mut list[..numbers],
        &mut settings[..s],
        &mut wires[..n],
        &mut sources[..n],
        &mut rows[..numbers],
        &mut marks[..n],
        &mut queue[..n],
        out,
    )
}
