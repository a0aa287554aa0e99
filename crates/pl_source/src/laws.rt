ghost use Rattle.std.specs.Prelude.{◌≡◌, ℕ, Bool, List, Some, None, ◌++◌, ◌∷◌, [], length, set};
ghost use Rattle.pl_base.specs.declared.pos.Pos.{Pos};
ghost use Rattle.pl_syntax.specs.Tree.{Name, Whole, Stmt, Load, Free};
ghost use Rattle.pl_syntax.specs.Values.{Value, Block, Vars};
ghost use Rattle.pl_syntax.specs.Straight.{Scope, AreSorted};
ghost use Rattle.pl_syntax.specs.Resource.{Resource, Adds, Cell, FreeToken, put_at};
ghost use Rattle.pl_terms.specs.Terms.{Values};
ghost use Rattle.pl_terms.specs.Table.{Known, Rule};
ghost use Rattle.pl_source.specs.Machine.{Heap, block_at, one_cell, resource_of, effect, FaultsBy, DeadBlock};
ghost use Rattle.pl_source.specs.Steps.{full, one_token, OneCells, Fits, Went, scope_after};

/// The laws of events: what an alloc adds to what there is to own, and what a free takes away; a load and a free of a block
/// that was freed fault; and a statement that keeps its rule goes, in any frame, which stays as it was, and what is known
/// after it then holds.
pub fn event_laws()
    ensures alloc { (h : Heap) (w : Value) → resource_of (h ++ Some (one_cell w) ∷ []) ≡ put_at (Cell (length h) 0 0) (Some (full w)) (put_at (FreeToken (length h)) (Some one_token) (resource_of h)) }
    ensures free { (h : Heap) (b : ℕ) (w : Value) → block_at h b ≡ Some (one_cell w) → resource_of (set h b None) ≡ put_at (FreeToken b) None (put_at (Cell b 0 0) None (resource_of h)) }
    ensures dead_load { (place : Pos) (x c : Name) (is_ghost : Bool) (b : ℕ) (h : Heap) (vars : Vars) → vars c ≡ Some (Block b) → block_at h b ≡ None → effect (Load place x (Whole c) is_ghost) h vars ≡ FaultsBy DeadBlock }
    ensures dead_free { (place : Pos) (x : Name) (b : ℕ) (h : Heap) (vars : Vars) → vars x ≡ Some (Block b) → block_at h b ≡ None → effect (Free place x) h vars ≡ FaultsBy DeadBlock }
    ensures goes { (s : Known) (scope : Scope) (vs : Values) (vars : Vars) (x frame : Resource) (h : Heap) → Fits s scope vs vars x → Adds x frame (resource_of h) → OneCells h → (st : Stmt) (rest : List Stmt) (t : Known) → Rule s st t → AreSorted scope (st ∷ rest) → Went t (scope_after scope st) vs st h vars frame }
{}
