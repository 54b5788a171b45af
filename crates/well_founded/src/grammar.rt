//! Checked grammars.
ghost use Rattle.std.specs.Prelude.{◌≡◌, ℕ, true, ◌-◌, ◌≤◌, ◌<◌, Some, IfSome, length, slice_get, option_map, option_and_then};
ghost use Rattle.spec_syntax.specs.Expression.{Expression};
ghost use Rattle.spec_syntax.specs.Rules.{symbol, right_side, all_nodes};
ghost use Rattle.well_founded.specs.declared.node.NodeKind.TheVariants.{Rule};
ghost use Rattle.well_founded.specs.Sizes.{IsLeast};
ghost use Rattle.spec_syntax.specs.Nodes.{node_at, right_node, all_right_nodes, card_at, name_at, children_at, arguments_at};
ghost use Rattle.well_founded.specs.NodeKinds.{kind_of, is_container};
ghost use Rattle.well_founded.specs.NodeTable.{nodes_of};
ghost use Rattle.well_founded.specs.Rank.{IsRank, FallsBySizes};
ghost use Rattle.well_founded.specs.Checked.{IsChecked, grammar};

use crate::NodeKind;
use crate::node::Node;
use spec_syntax::{Card, Spec, Universe};
use std::marker::Model;

/// A grammar that passed the check, with its expressions as nodes, numbered from 0 in preorder, rule by rule.
///
/// A contract sees its rules, its universe, its start, and the least sizes and ranks of its nodes.
#[derive(Drop)]
pub struct Grammar {
    spec: Spec,
    universe: Universe,
    start: Option<u32>,
    nodes: Vec<Node>,
    right_nodes: Vec<u32>,
    leasts: Vec<u32>,
    ranks: Vec<u32>,
}

impl Model for Grammar {
    ghost use Rattle.well_founded.specs.Checked.{Checked};
    ghost use Rattle.well_founded.specs.CheckedCode.{checked_code};

    ghost Value = { Checked };

    ghost coded = { checked_code };

    ghost use Rattle.well_founded.specs.GrammarView.{checked_of, IsKept};

    ghost view = { checked_of };

    ghost invariant = { IsKept };
}

impl Grammar {
    /// The rules.
    pub fn spec(&self) -> &Spec
        ensures value { result.now ≡ self.now.rules }
        ensures kept { IsChecked self.now }
    {
        &self.spec
    }

    /// The universe.
    pub fn universe(&self) -> Universe
        ensures { result ≡ self.now.universe }
    {
        self.universe
    }

    /// The number of the rule that the class symbol names, where there is a class symbol.
    pub fn start(&self) -> Option<u32>
        ensures value { result ≡ self.now.start }
        ensures within { IfSome result (λ sym. (1 ≤ sym) × (sym ≤ length self.now.rules)) }
    {
        self.start
    }

    /// The number of nodes.
    pub fn nodes(&self) -> u32
        ensures value { result ≡ length (all_nodes self.now.rules) }
        ensures kept { IsChecked self.now }
    {
        self.nodes.len() as u32
    }

    /// The node of the right side of rule number `sym`, counted from 1.
    pub fn rule_node(&self, sym: u32) -> u32
        requires low { 1 ≤ sym }
        requires high { sym ≤ length self.now.rules }
        ensures value { result ≡ right_node self.now.rules sym }
        ensures right { node_at self.now.rules result ≡ right_side self.now.rules sym }
        ensures within { result < length (all_nodes self.now.rules) }
    {
        self.right_nodes[sym as usize - 1]
    }

    /// What the node is.
    pub fn kind(&self, node: u32) -> NodeKind
        requires { node < length (all_nodes self.now.rules) }
        ensures { option_map kind_of (node_at self.now.rules node) ≡ Some result }
    {
        self.nodes[node as usize].kind()
    }

    /// The number of nodes directly inside the node: the arguments of a Union or a Prod, or the element of a container.
    pub fn children(&self, node: u32) -> u32
        requires { node < length (all_nodes self.now.rules) }
        ensures { result ≡ length (children_at self.now.rules node) }
    {
        self.nodes[node as usize].children()
    }

    /// The node number `i`, counted from 1, of those directly inside the node.
    pub fn child(&self, node: u32, i: u32) -> u32
        requires within { node < length (all_nodes self.now.rules) }
        requires low { 1 ≤ i }
        requires high { i ≤ length (children_at self.now.rules node) }
        ensures value { slice_get (children_at self.now.rules node) (i - 1) ≡ Some result }
        ensures argument { node_at self.now.rules result ≡ slice_get (arguments_at self.now.rules node) (i - 1) }
        ensures within { result < length (all_nodes self.now.rules) }
    {
        self.nodes[node as usize].child(i - 1)
    }

    /// The bound on the number of components of the container that the node is.
    pub fn card(&self, node: u32) -> Card
        requires within { node < length (all_nodes self.now.rules) }
        requires container { option_map is_container (option_map kind_of (node_at self.now.rules node)) ≡ Some true }
        ensures { card_at self.now.rules node ≡ Some result }
    {
        self.nodes[node as usize].card()
    }

    /// The number of the rule that the node names.
    pub fn sym(&self, node: u32) -> u32
        requires within { node < length (all_nodes self.now.rules) }
        requires rule { option_map kind_of (node_at self.now.rules node) ≡ Some Rule }
        ensures value { option_and_then (symbol self.now.rules) (name_at self.now.rules node) ≡ Some result }
        ensures low { 1 ≤ result }
        ensures high { result ≤ length self.now.rules }
    {
        self.nodes[node as usize].rule()
    }

    /// The least size of a structure of the node with each PowerSet read as Set, or 1001 where it is greater or where there
    /// is no structure.
    pub fn least(&self, node: u32) -> u32
        requires { node < length (all_nodes self.now.rules) }
        ensures value { slice_get self.now.leasts node ≡ Some result }
        ensures least { (e : Expression) → node_at self.now.rules node ≡ Some e → IsLeast (grammar self.now) e result }
    {
        self.leasts[node as usize]
    }

    /// The rank of the node. It is below the number of nodes, and above the rank of each child, or named rule's node, whose
    /// structure can stand directly inside one of this node's of the same size, with each PowerSet read as Set. It is
    /// also above that of each child, or of a named right side that isn't a word, with a least size of at most 1000, where in a
    /// Prod the least sizes of all other components are 0 and in a container the bound admits one component.
    pub fn rank(&self, node: u32) -> u32
        requires { node < length (all_nodes self.now.rules) }
        ensures value { slice_get self.now.ranks node ≡ Some result }
        ensures rank { (e : Expression) → node_at self.now.rules node ≡ Some e → IsRank (grammar self.now) self.now.ranks node e result }
        ensures falls { (e : Expression) → node_at self.now.rules node ≡ Some e → FallsBySizes self.now.rules self.now.leasts self.now.ranks node e result }
        ensures within { result < length (all_nodes self.now.rules) }
    {
        self.ranks[node as usize]
    }
}

/// The grammar of these rules, with its tables.
pub(crate) fn checked(
    spec: Spec,
    universe: Universe,
    start: Option<u32>,
    nodes: Vec<Node>,
    right_nodes: Vec<u32>,
    leasts: Vec<u32>,
    ranks: Vec<u32>,
) -> Grammar
    requires checked { IsChecked (record { rules = spec; universe = universe; start = start; leasts = leasts.items; ranks = ranks.items }) }
    requires nodes { nodes.items ≡ nodes_of spec }
    requires right_nodes { right_nodes.items ≡ all_right_nodes spec }
    ensures { result ≡ record { rules = spec; universe = universe; start = start; leasts = leasts.items; ranks = ranks.items } }
{
    Grammar {
        spec,
        universe,
        start,
        nodes,
        right_nodes,
        leasts,
        ranks,
    }
}
