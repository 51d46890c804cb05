//! Laws of boxes and of where their glue is set.
ghost use Rattle.std.specs.Prelude.{◌≡◌, ◌≢◌, ◌↔◌, IsTrue, Ok, Err, None, [], ◌∷◌, ◌++◌, ◌+◌, ℕ, ℤ, pos, neg_ℤ, ◌+ℤ◌, ◌<◌, ◌≤◌, List, length, take, slice_index_or};
ghost use Rattle.lb_base.specs.declared.glue.GlueSet.{GlueSet};
ghost use Rattle.lb_base.specs.declared.glue.Target.{Target};
ghost use Rattle.lb_base.specs.declared.fault.Kind.TheVariants.{DepthLimit, DimenTooLarge};
ghost use Rattle.lb_base.specs.declared.node.Axis.{Axis};
ghost use Rattle.lb_base.specs.declared.node.Boxed.{Boxed, out-Boxed};
ghost use Rattle.lb_base.specs.declared.node.Discretionary.{Discretionary, out-Discretionary};
ghost use Rattle.lb_base.specs.declared.node.HeadMark.TheOpen.{Glue};
ghost use Rattle.lb_base.specs.declared.node.Node.{Disc, Node, out-Node};
ghost use Rattle.lb_model_paper.specs.Boxes.{IsPacked, IsSmallBox, give_of, is_overfull, nesting_of_list, packed, packs, place_of, shift_after, shift_behind, shift_through};
ghost use Rattle.lb_model_paper.specs.Nodes.{along, natural_size, shown, total, unbroken_parts};
ghost use Rattle.lb_nodes.specs.Laws.{HasNoDiscretionary, TakesUpAll, size_along, three_times, two_more, unit_stretch};
ghost use Rattle.lb_nodes.specs.Setting.{IsSmallSetting, given_behind, given_past, shift_given};

/// Where the excess is 0, or there is something to stretch by it, or enough to shrink by it, the
/// shift behind all that the glue gives is exactly the excess. So a packed box ends exactly at its
/// size: the natural size of its items and the shift through the last one make up its size along
/// its list.
pub fn ends_at_its_size()
    ensures excess { (set : GlueSet) (whole : ℤ) → TakesUpAll set whole
        → shift_behind set whole whole ≡ set.excess }
    ensures size { (axis : Axis) (nodes : List Node) (target : Target) (box : Boxed) (last : ℕ)
        → IsPacked axis nodes target box
        → TakesUpAll (out-Boxed box).glue_set (total (give_of (out-Boxed box).glue_set) nodes)
        → last + 1 ≡ length nodes
        → natural_size axis nodes +ℤ shift_through box last ≡ size_along axis box }
{}

/// Where the glue has nothing to give, the items keep their natural places, and a box that has to
/// shrink by more than its finite shrink shrinks by all of that.
pub fn glue_that_does_not_reach()
    ensures nothing { (set : GlueSet) (part : ℤ) → shift_behind set part (pos 0) ≡ pos 0 }
    ensures overfull { (set : GlueSet) (part whole : ℤ) → whole ≢ pos 0
        → IsTrue (is_overfull set whole) → shift_behind set part whole ≡ neg_ℤ part }
{}

/// The sums and the shifts of a packed box are small.
pub fn packed_is_small()
    ensures { (axis : Axis) (nodes : List Node) (target : Target) (box : Boxed)
        → IsPacked axis nodes target box → IsSmallBox axis nodes target → IsSmallSetting box }
{}

/// Going over the items of a box in order gives the shift through each of them, and the place where
/// each begins.
pub fn shifts_in_order()
    ensures first { (box : Boxed) → shift_given (given_behind box 0) ≡ pos 0 }
    ensures step { (box : Boxed) (item : ℕ) (node : Node) → item < length (out-Boxed box).items
        → given_past (given_behind box item) (slice_index_or (out-Boxed box).items item node)
        ≡ given_behind box (item + 1) }
    ensures shift { (box : Boxed) (item : ℕ)
        → shift_given (given_behind box (item + 1)) ≡ shift_through box item }
    ensures place { (box : Boxed) (item : ℕ) → place_of box item
        ≡ total (along (out-Boxed box).axis) (take item (out-Boxed box).items)
        +ℤ shift_given (given_behind box item) }
{}

/// Packing as a function and as a relation: the relation fixes one box, and a list is packed into it
/// exactly where its sums and lengths are below 2^30 scaled points in size and at most 500 boxes
/// stand inside one another. A sum that is not small comes first.
pub fn packing()
    ensures relation { (axis : Axis) (nodes : List Node) (target : Target) (box : Boxed)
        → IsPacked axis nodes target box ↔ (box ≡ packed axis nodes target) }
    ensures made { (axis : Axis) (nodes : List Node) (target : Target) (box : Boxed)
        → (packs axis nodes target ≡ Ok box)
        ↔ (IsSmallBox axis nodes target × (nesting_of_list nodes ≤ 500) × IsPacked axis nodes target box) }
    ensures large { (axis : Axis) (nodes : List Node) (target : Target)
        → (packs axis nodes target ≡ Err DimenTooLarge) ↔ (IsSmallBox axis nodes target → ⊥) }
    ensures deep { (axis : Axis) (nodes : List Node) (target : Target)
        → (packs axis nodes target ≡ Err DepthLimit)
        ↔ (IsSmallBox axis nodes target × (500 < nesting_of_list nodes)) }
{}

/// What a list shows: the parts of it one after another, a discretionary its third part and anything
/// else itself. So no discretionary is left, and a list without one shows itself.
pub fn shown_lists()
    ensures nothing { shown [] ≡ [] }
    ensures joined { (nodes more : List Node) → shown (nodes ++ more) ≡ shown nodes ++ shown more }
    ensures disc { (parts : Discretionary) (nodes : List Node)
        → shown (Disc parts ∷ nodes) ≡ shown (out-Discretionary parts).no_break ++ shown nodes }
    ensures other { (node : Node) (nodes : List Node) → unbroken_parts node ≡ None
        → shown (node ∷ nodes) ≡ node ∷ shown nodes }
    ensures none_left { (nodes : List Node) → HasNoDiscretionary (shown nodes) }
    ensures itself { (nodes : List Node) → HasNoDiscretionary nodes → shown nodes ≡ nodes }
    ensures again { (nodes : List Node) → shown (shown nodes) ≡ shown nodes }
{}

/// Three glues of width 0 that stretch by 1sp each and are set with an excess of 2sp: behind them
/// the shifts are 1sp, 1sp and 2sp. Were each glue rounded by itself, they would be 1sp, 2sp and
/// 3sp.
pub fn worked_row()
    ensures first { (node : Node) → out-Node node ≡ Glue unit_stretch
        → shift_after two_more (three_times node) 1 ≡ pos 1 }
    ensures second { (node : Node) → out-Node node ≡ Glue unit_stretch
        → shift_after two_more (three_times node) 2 ≡ pos 1 }
    ensures third { (node : Node) → out-Node node ≡ Glue unit_stretch
        → shift_after two_more (three_times node) 3 ≡ pos 2 }
{}
