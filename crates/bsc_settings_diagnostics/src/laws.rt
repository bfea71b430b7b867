//! What is told of settings is what their definition says.
ghost use Rattle.std.specs.Prelude.{ℕ, true, false};
ghost use Rattle.bsc_settings.specs.Table.{hub_table, node_table};
ghost use Rattle.bsc_settings_diagnostics.specs.Ranges.{AreTold};

/// The ranges that are told are those of the tables of keys.
pub fn ranges_are_told()
    ensures hub { (least : ℕ) → AreTold least false hub_table }
    ensures node { (least : ℕ) → AreTold least true (node_table true least) }
    ensures other_node { (least : ℕ) → AreTold least true (node_table false least) }
{}
