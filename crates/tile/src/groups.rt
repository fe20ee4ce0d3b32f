// The groups of a tile's settings, of which most are off: passed over, and turned from patterns into entries.
ghost use Rattle.std.specs.Prelude.{◌≡◌, true, false, ℕ, ◌<◌, ◌≤◌, length};
ghost use Rattle.routing.specs.LogicTile.{logic_tile};
ghost use Rattle.routing.specs.Rules.{TableRules};
ghost use Rattle.routing.specs.Table.{group_count};
ghost use Rattle.ports.specs.Lengths.{settings_length, max_groups};
ghost use Rattle.codec.specs.Settings.{group_setting};
ghost use Rattle.tile.specs.Taking.{Found, Unfound};

use codec::groups::{GroupRead, setting_of};
use codec::settings::GROUPS_FROM;

// The next group to look at behind one that is off: groups that are off are passed over four at a time.
pub fn after_off(settings: &[u16], g: usize, n: usize) -> usize
    requires { (length settings.now ≡ settings_length) × (g < n) × (n ≤ max_groups) × (group_setting logic_tile settings.now g ≡ 0) }
    ensures { (g < result) × (result ≤ n) × ((j : ℕ) → g ≤ j → j < result → group_setting logic_tile settings.now j ≡ 0) }
{
    let mut at = g + 1;
    while at + 4 <= n {
        let from = GROUPS_FROM + at;
        let any = settings[from] | settings[from + 1] | settings[from + 2] | settings[from + 3];
        if any != 0 {
            return at;
        }
        at += 4;
    }
    at
}

// The pattern of each group, which stands where its setting belongs, turned into that setting; a no for a pattern that the table does not list.
// Rules out: a pattern left as it is; a no for a pattern that is listed.
pub fn find_settings(table: &[u16], settings: &mut [u16]) -> bool
    requires { (TableRules logic_tile table.now) × (length settings.old ≡ settings_length) }
    ensures yes { result ≡ true → Found table.now (group_count logic_tile table.now) settings.old
        settings.new }
    ensures no { result ≡ false → Unfound table.now settings.old }
{
    let n = routing::table::group_count(table);
    let mut g = 0;
    while g < n {
        let pattern = settings[GROUPS_FROM + g];
        if pattern == 0 {
            g = after_off(settings, g, n);
        } else {
            let GroupRead::Setting(setting) = setting_of(table, g, pattern) else {
                return false;
            };
            settings[GROUPS_FROM + g] = setting;
            g += 1;
        }
    }
    true
}
