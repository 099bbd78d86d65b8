//! Tests of the writers, over their public calls.
#![tactic(auto)]

#[cfg(test)]
mod advance_variations;
#[cfg(test)]
mod assembly;
#[cfg(test)]
mod axis_styles;
#[cfg(test)]
mod axis_tables;
#[cfg(test)]
mod cmap_table;
#[cfg(test)]
mod font_names;
#[cfg(test)]
mod glyf;
#[cfg(test)]
mod metrics;
#[cfg(test)]
mod metrics_variations;
#[cfg(test)]
mod offset_trees;
#[cfg(test)]
mod points_left_out;
#[cfg(test)]
mod tables_by_tag;
#[cfg(test)]
mod variation_stores;
