#![tactic(auto)]
//! Tests of the tables of the host, of the rules of BFQ on them, of texts and of images, and nothing else.
//!
//! They stand apart from the crates that they test, since a crate with tests is proved once without and once with them.
//!
//! | tests | of the crate | what they compare |
//! |---|---|---|
//! | `sectors` | `sector_core` | the limits of a configuration as numbers, printed texts, ranges, blocks and tables |
//! | `blocks` | `overlay` | blocks that come and go |
//! | `images` | `base_image` | the lengths and bytes of reads, and what a file gives |
//! | `pool` | `request_pool` | requests and bios in their slots |
//! | `tags` | `tag_set` | tags that are borne and let go |
//! | `queues` | `process_queue` | the order of queues, merges and the next request |
//! | `listed` | `process_queue`, `group_tree` | after each of a thousand acts the queues beside plain ones, and the children of groups |
//! | `turns` | `soft_queue` | the seat whose turn it is |
//! | `trees`, `compared` | `service_tree` | picks, changes and sums by hand, and the tree's answers beside the plain ones |
//! | `classes`, `classed` | `class_trees` | each call by hand, and the answers of each class beside those of a plain list |
//! | `groups` | `group_tree` | paths and depths |
//! | `tapes` | `change_record` | exchanges and lists of them, forth and back |
//! | `rules` | `bfq_select` | times and budgets that were computed by hand |
//! | `texts` | `sector_text` | hexadecimal texts |
//!
//! `host` has the tables and the tape on which the tests call the rules of BFQ.

#[cfg(test)]
mod blocks;
#[cfg(test)]
mod classed;
#[cfg(test)]
mod classes;
#[cfg(test)]
mod compared;
#[cfg(test)]
mod groups;
#[cfg(test)]
mod host;
#[cfg(test)]
mod images;
#[cfg(test)]
mod listed;
#[cfg(test)]
mod pool;
#[cfg(test)]
mod queues;
#[cfg(test)]
mod rules;
#[cfg(test)]
mod sectors;
#[cfg(test)]
mod tags;
#[cfg(test)]
mod tapes;
#[cfg(test)]
mod texts;
#[cfg(test)]
mod trees;
#[cfg(test)]
mod turns;
