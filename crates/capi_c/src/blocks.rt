// Reading, writing and counting the bits of a block.
ghost use Rattle.std.specs.Prelude.{◌≡◌, length};
ghost use Rattle.refusal.specs.Memory.{output};
ghost use Rattle.ports.specs.Block.{size, tile_count};
ghost use Rattle.config.specs.Blocks.{decoded, encoded, tiles_of};
ghost use Rattle.config.specs.Entry.{read_answer, write_answer, bit_count_answer};
ghost use Rattle.capi.specs.Packed.{packed_answer, packed_number, ground_in};

// Reads a block's bits to its settings. Grounds 1, 2, 3, 4.
#[unsafe(no_mangle)]
pub extern "C" fn ice40_read(
    w: u32,
    h: u32,
    table: &[u16],
    bits: &[u64],
    settings: &mut [u16],
) -> u64
    ensures answer { result ≡ packed_answer (read_answer (size w h) table.now bits.now (length settings.old)) }
    ensures settings { settings.new ≡ output (ground_in result) settings.old
        (decoded table.now (tiles_of bits.now) (tile_count (size w h))) }
{
    capi::blocks::ice40_read(w, h, table, bits, settings)
}

// Writes a block's settings as bits. Grounds 1, 2, 3, 9.
#[unsafe(no_mangle)]
pub extern "C" fn ice40_write(
    w: u32,
    h: u32,
    table: &[u16],
    settings: &[u16],
    bits: &mut [u64],
) -> u64
    ensures answer { result ≡ packed_answer (write_answer (size w h) table.now settings.now (length bits.old)) }
    ensures bits { bits.new ≡ output (ground_in result) bits.old
        (encoded table.now settings.now (tile_count (size w h))) }
{
    capi::blocks::ice40_write(w, h, table, settings, bits)
}

// How many of a tile's bits are set. Grounds 1, 2, 20.
#[unsafe(no_mangle)]
pub extern "C" fn ice40_bit_count(w: u32, h: u32, bits: &[u64], tile: u32) -> u64
    ensures { result ≡ packed_number (bit_count_answer (size w h) bits.now tile) }
{
    capi::blocks::ice40_bit_count(w, h, bits, tile)
}
