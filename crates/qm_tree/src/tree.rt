ghost use Rattle.std.specs.Prelude.{◌≡◌, ◌<◌, length, Some, slice_get, IfOk, IsTrue};
ghost use Rattle.qm_space.specs.Point.{Point as SpacePoint};
ghost use Rattle.qm_space.specs.Reduced.{leads_positive, IsReduced};
ghost use Rattle.qm_partition.specs.declared.node.Node.{Node as NodeRecord};
ghost use Rattle.qm_partition.specs.Partition.{Partition};
ghost use Rattle.qm_partition.specs.Tree.{Tree};
ghost use Rattle.qm_partition.specs.Counting.{leaves_of, leaf_count, node_count};
ghost use Rattle.qm_partition.specs.Numbering.{child_of, nodes_of};
ghost use Rattle.qm_partition.specs.LeafOfPoint.{leaf_record_at, leaf_at};
ghost use Rattle.qm_partition.specs.inner.ChildTowards.{child_towards};
ghost use Rattle.qm_partition.specs.inner.LeavesInFront.{leaves_in_front, ComesBehind};
ghost use Rattle.qm_partition.specs.Ways.{ways, HasPoints};
ghost use Rattle.qm_partition.specs.Visits.{visits};
ghost use Rattle.qm_partition.specs.Joining.{joined};
ghost use Rattle.qm_partition.specs.Marked.{marked_tree};
ghost use Rattle.qm_partition.specs.WellMade.{IsWellMade, IsMadeOf};

use crate::filling::mark_filled;
use crate::joining::joined_backwards;
use crate::not_a_tree::NotATree;
use crate::numbered::are_numbered;
use crate::numbering::numbered_parts;
use crate::parts::are_parts;
use crate::way::Way;
use qm_bits::BitRow;
use qm_geom::{Plane, Point};
use qm_partition::{Child, Leaf, Node, Step, Visit};
use std::alloc::{AllocError, Global};
use std::marker::Model;

/// A binary space partition tree: planes, and the nodes and leaves that cut space by them, both numbered front first.
#[derive(Drop)]
pub struct Tree {
    planes: Vec<Plane>,
    nodes: Vec<Node>,
    leaves: Vec<Leaf>,
}

impl Model for Tree {
    ghost use Rattle.qm_partition.specs.Tree.{Tree};
    ghost use Rattle.qm_partition.specs.inner.TreeCode.{tree_code};
    ghost use Rattle.qm_partition.specs.Arrays.{tree_of};
    ghost use Rattle.qm_partition.specs.WellMade.{IsMadeOf};

    ghost Value = { Tree };

    ghost coded = { tree_code };

    ghost view = { λ t. tree_of t.planes.items t.nodes.items t.leaves.items };

    ghost invariant = { λ t. IsMadeOf (tree_of t.planes.items t.nodes.items t.leaves.items) t.planes.items t.nodes.items t.leaves.items };
}

impl Tree {
    /// The tree of planes, nodes and leaves. `NotNumbered` exactly where no tree has these.
    pub fn of(
        alloc: Global,
        planes: Vec<Plane>,
        nodes: Vec<Node>,
        leaves: Vec<Leaf>,
    ) -> Result<Tree, NotATree>
        ensures made { IfOk result (λ tree. IsMadeOf tree planes.items nodes.items leaves.items) }
        ensures none { result ≡ Err NotATree.NotNumbered → (tree : Tree) → IsMadeOf tree planes.items nodes.items leaves.items → ⊥ }
    {
        if !are_parts(&planes, &nodes, &leaves) {
            return Err(NotATree::NotNumbered);
        }
        if !are_numbered(alloc, &nodes, leaves.len() as u64)? {
            return Err(NotATree::NotNumbered);
        }
        Ok(Tree {
            planes,
            nodes,
            leaves,
        })
    }

    /// The tree of the visits of a walk, in which siblings that are leaves of equal contents have become one leaf, from the
    /// leaves up.
    pub fn joined_of(
        alloc: Global,
        planes: Vec<Plane>,
        walk: Vec<Visit>,
    ) -> Result<Tree, AllocError>
        requires { (shape : Partition) × (visits shape ≡ walk.items) × IsWellMade (record { planes = planes.items; shape = shape }) }
        ensures { (shape : Partition) → visits shape ≡ walk.items → IfOk result (λ tree. tree ≡ record { planes = planes.items; shape = joined shape }) }
    {
        let backwards = joined_backwards(alloc, walk)?;
        let (nodes, leaves) = numbered_parts(alloc, &backwards)?;
        Ok(Tree {
            planes,
            nodes,
            leaves,
        })
    }

    /// The tree in which siblings that are leaves of equal contents have become one leaf, from the leaves up. Nodes and
    /// leaves are numbered anew. Each point has the contents that it had, and where each leaf had a point, each has one.
    pub fn joined(self, alloc: Global) -> Result<Tree, AllocError>
        ensures value { IfOk result (λ tree. tree ≡ record { planes = self.planes; shape = joined self.shape }) }
        ensures contents { IfOk result (λ tree. (x : SpacePoint) → (leaf_record_at tree.planes tree.shape x).contents ≡ (leaf_record_at self.planes self.shape x).contents) }
        ensures points { HasPoints self → IfOk result (λ tree. HasPoints tree) }
    {
        let walk = self.walk(alloc)?;
        let Tree { planes, .. } = self;
        let tree = Tree::joined_of(alloc, planes, walk)?;
        Ok(tree)
    }

    /// The tree whose leaves of a row are marked as filled, and so are solid. All else stays as it was.
    pub fn with_filled(self, filled: &BitRow) -> Tree
        requires { length filled.now ≡ leaf_count self.shape }
        ensures { result ≡ marked_tree filled.now self }
    {
        let Tree {
            planes,
            nodes,
            mut leaves,
        } = self;
        mark_filled(&mut leaves, filled);
        Tree {
            planes,
            nodes,
            leaves,
        }
    }

    /// The same tree once more.
    pub fn copy(&self, alloc: Global) -> Result<Tree, AllocError>
        ensures { IfOk result (λ tree. tree ≡ self.now) }
    {
        let planes = self.planes.to_vec(alloc)?;
        let nodes = self.nodes.to_vec(alloc)?;
        let leaves = self.leaves.to_vec(alloc)?;
        Ok(Tree {
            planes,
            nodes,
            leaves,
        })
    }

    /// The visits of a walk through all nodes and leaves.
    fn walk(&self, alloc: Global) -> Result<Vec<Visit>, AllocError>
        ensures { IfOk result (λ walk. walk.items ≡ visits self.now.shape) }
    {
        let mut walk = Vec::with_capacity(alloc, self.nodes.len() + self.leaves.len())?;
        let mut due = Vec::new(alloc);
        due.push(self.root())?;
        while let Some(child) = due.pop() {
            match child {
                Child::Leaf(leaf) => {
                    walk.push(Visit::Leaf(self.leaf(leaf)))?;
                }
                Child::Node(n) => {
                    let node = self.node(n);
                    walk.push(Visit::Node(node.plane))?;
                    due.push(node.back)?;
                    due.push(node.front)?;
                }
            }
        }
        Ok(walk)
    }

    /// The steps from the root to a leaf.
    pub fn path(&self, alloc: Global, leaf: u64) -> Result<Way, AllocError>
        requires { leaf < leaf_count self.now.shape }
        ensures { IfOk result (λ way. slice_get (ways self.now.shape) leaf ≡ Some way) }
    {
        let mut steps = Vec::new(alloc);
        let mut child = self.root();
        let mut first = 0;
        while let Child::Node(n) = child {
            let node = self.node(n);
            let in_front = leaves_in_front(node.back, n, first);
            let front = leaf - first < in_front;
            steps.push(Step {
                plane: node.plane,
                front,
            })?;
            if front {
                child = node.front;
            } else {
                child = node.back;
                first += in_front;
            }
        }
        Ok(Way::of(steps))
    }

    /// The number of the leaf to which a point is led: at each node to the front where the point is not behind the plane.
    pub fn leaf_at(&self, at: &Point) -> u64
        ensures value { result ≡ leaf_at self.now.planes self.now.shape at.now }
        ensures within { result < leaf_count self.now.shape }
    {
        let mut child = self.root();
        loop {
            match child {
                Child::Leaf(leaf) => return leaf,
                Child::Node(n) => child = self.child_towards(n, at),
            }
        }
    }

    /// The child that a walk begins with.
    pub fn root(&self) -> Child
        ensures { result ≡ child_of self.now.shape 0 0 }
    {
        if self.nodes.is_empty() {
            Child::Leaf(0)
        } else {
            Child::Node(0)
        }
    }

    /// The child of a node on the side of a point.
    fn child_towards(&self, n: u64, at: &Point) -> Child
        requires { n < node_count self.now.shape }
        ensures { (here : NodeRecord) × (slice_get (nodes_of self.now.shape 0 0) n ≡ Some here) × (result ≡ child_towards self.now.planes here at.now) }
    {
        let node = self.node(n);
        if self.plane(node.plane).side(at).is_lt() {
            node.back
        } else {
            node.front
        }
    }

    /// How many planes there are.
    pub fn planes(&self) -> u32
        ensures value { result ≡ length self.now.planes }
        ensures well_made { IsWellMade self.now }
    {
        self.planes.len() as u32
    }

    /// The plane of a number.
    pub fn plane(&self, n: u32) -> Plane
        requires { n < length self.now.planes }
        ensures value { slice_get self.now.planes n ≡ Some result }
        ensures leads { IsTrue (leads_positive result) }
        ensures reduced { IsReduced result }
    {
        let plane = self.planes[n as usize];
        // Each plane is in lowest terms, as its fields show.
        let _ = &plane.nx;
        plane
    }

    /// How many nodes there are.
    pub fn nodes(&self) -> u64
        ensures { result ≡ node_count self.now.shape }
    {
        self.nodes.len() as u64
    }

    /// The node of a number.
    pub fn node(&self, n: u64) -> Node
        requires { n < node_count self.now.shape }
        ensures value { slice_get (nodes_of self.now.shape 0 0) n ≡ Some result }
        ensures plane { result.plane < length self.now.planes }
    {
        self.nodes[n as usize]
    }

    /// How many leaves there are.
    pub fn leaves(&self) -> u64
        ensures { result ≡ leaf_count self.now.shape }
    {
        self.leaves.len() as u64
    }

    /// The leaf of a number.
    pub fn leaf(&self, n: u64) -> Leaf
        requires { n < leaf_count self.now.shape }
        ensures { slice_get (leaves_of self.now.shape) n ≡ Some result }
    {
        self.leaves[n as usize]
    }

    /// The planes in the order of their numbers.
    pub fn all_planes(&self) -> &[Plane]
        ensures { result.now ≡ self.now.planes }
    {
        &self.planes
    }

    /// The nodes in the order of their numbers.
    pub fn all_nodes(&self) -> &[Node]
        ensures { result.now ≡ nodes_of self.now.shape 0 0 }
    {
        &self.nodes
    }

    /// The leaves in the order of their numbers.
    pub fn all_leaves(&self) -> &[Leaf]
        ensures { result.now ≡ leaves_of self.now.shape }
    {
        &self.leaves
    }
}

/// How many leaves are in front of the node of number `n`, of whose leaves the first has the number `first`, by the child
/// behind it. As there is one leaf more than nodes, they are as many as there are numbers from `n` up to the node behind.
fn leaves_in_front(back: Child, n: u64, first: u64) -> u64
    requires { ComesBehind back n first }
    ensures { result ≡ leaves_in_front back n first }
{
    match back {
        Child::Leaf(leaf) => leaf - first,
        Child::Node(m) => m - n,
    }
}
