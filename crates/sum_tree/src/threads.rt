//! Trees may be sent to other threads and shared with them.
use crate::traits::Item;
use crate::tree::SumTree;

fn sends<X: Send>(_x: &X) {}

fn shares<X: Sync>(_x: &X) {}

/// Checked by the compiler and never called: a tree is `Send` and `Sync` if its items and their summaries are.
pub fn crosses_threads<T: Item + Send + Sync>(tree: &SumTree<T>)
where
    T::Summary: Send + Sync,
{
    sends(tree);
    shares(tree);
}
