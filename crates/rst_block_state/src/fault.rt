//! What reading blocks gives.
use rst_block_nodes::BlockFault;

/// What reading blocks gives, or what hinders it.
pub type Result<T, E = BlockFault> = std::result::Result<T, E>;
