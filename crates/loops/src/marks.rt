// Marks of listed wires, as the search for a loop starts with them: 1 where the wire is listed, else 0.
ghost use Rattle.std.specs.Prelude.{◌≡◌, length};
ghost use Rattle.netlist.specs.Marks.{only_listed};

// Writes which wires are listed: what else a mark may say is left out.
// Rules out: a wire with another mark taken for a listed one.
pub fn write_listed(marks: &[u16], listed: &mut [u16])
    requires { length listed.old ≡ length marks.now }
    ensures { listed.new ≡ only_listed marks.now }
{
    for w in 0..marks.len() {
        listed[w] = u16::from(marks[w] == 1);
    }
}
