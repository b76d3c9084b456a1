// What is known of the lists in which each thing stands once, and of those that stand in an order.
ghost use Rattle.std.specs.Prelude.{◌≡◌, ◌==◌, ◌&&◌, ◌↔◌, ◌≤◌, AllPairs, IsPermutation, List, [], true, false, filter, nat_eq, ℕ};
ghost use Rattle.std.specs.List.{list_any};
ghost use Rattle.std.specs.Str.{bytes_eq};
ghost use Rattle.kl_model.specs.Lists.{among};
ghost use Rattle.kl_model.specs.Faults.{doubled, is_global_definition};
ghost use Rattle.kl_model.specs.Names.{comes_before, common_names, edge_lines, holds_common, lines_in_order, occurrences, sorted_names};
ghost use Rattle.kl_model.specs.Slots.{name_of, same_target, slots, stubs, takes_slot, takes_stub, way_of};
ghost use Rattle.kl_model.specs.declared.graph.Graph.{Graph};
ghost use Rattle.kl_model.specs.declared.graph.Target.{Target};
ghost use Rattle.kl_model.specs.declared.kit.Kit.{Kit};
ghost use Rattle.kl_model.specs.declared.object.Input.{Input};

/// A name has one common where a common of its name holds, a target has one slot where a field takes a slot to it, and a dynamic
/// name has one stub where a field takes one; nothing else has.
pub fn stand_once()
    ensures commons_apart { (kit : Kit) (inputs : List Input) → AllPairs (λ x y. bytes_eq x y ≡ false) (common_names kit inputs) }
    ensures commons { (kit : Kit) (inputs : List Input) (name : List ℕ) → among (common_names kit inputs) name ≡ list_any (λ o. holds_common kit inputs o && bytes_eq name o.name) (occurrences inputs) }
    ensures slots_apart { (g : Graph) → AllPairs (λ x y. same_target x y ≡ false) (slots g) }
    ensures slots { (g : Graph) (t : Target) → list_any (same_target t) (slots g) ≡ list_any (λ f. takes_slot (way_of f) && same_target t f.target) g.fields }
    ensures stubs_apart { (g : Graph) → AllPairs (λ m n. (m == n) ≡ false) (stubs g) }
    ensures stubs { (g : Graph) (n : ℕ) → list_any (nat_eq n) (stubs g) ≡ list_any (λ f. takes_stub (way_of f) && nat_eq n (name_of f.target)) g.fields }
{}

/// The names of symbols that aren't LOCAL stand in strictly ascending bytes, and the lines that give edges ascend by their
/// numbers; neither list has another item than those that are put in order.
pub fn stand_in_order()
    ensures names_ascend { (inputs : List Input) → AllPairs (λ x y. comes_before x y ≡ true) (sorted_names inputs) }
    ensures names { (inputs : List Input) (name : List ℕ) → among (sorted_names inputs) name ≡ list_any (λ o. bytes_eq name o.name) (occurrences inputs) }
    ensures lines_ascend { (kit : Kit) → AllPairs (λ x y. x.0 ≤ y.0) (lines_in_order kit) }
    ensures lines { (kit : Kit) → IsPermutation (edge_lines kit) (lines_in_order kit) }
{}

/// No name is doubled exactly where no two GLOBAL definitions have one name.
pub fn stand_doubled()
    ensures none { (kit : Kit) (inputs : List Input) → (doubled kit inputs ≡ []) ↔ AllPairs (λ x y. bytes_eq x.name y.name ≡ false) (filter (is_global_definition kit inputs) (occurrences inputs)) }
{}
