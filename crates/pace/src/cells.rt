//! Every cell of the matrix, looked up by its row and column.
use crate::figure;
use layout::pack::SdccFlp;
use matrix::lookup::correlation;

// The figure with the cells of row i.
fn of_row(from: u64, pack: SdccFlp, deviations: &[u64], correlations: &[u64], i: usize) -> u64 {
    let mut figure = from;
    for j in 0..deviations.len() {
        let cell = correlation(pack, deviations, correlations, i as u64, j as u64);
        figure = figure::add(figure, cell.unwrap_or(figure::REFUSED));
    }
    figure
}

// The figure of all the rows.
pub(crate) fn of_matrix(deviations: &[u64], correlations: &[u64]) -> u64 {
    let pack = SdccFlp {
        matrix_size: deviations.len() as u64,
        deviations: deviations.len(),
        slots: correlations.len(),
    };
    let mut figure: u64 = 0;
    for i in 0..deviations.len() {
        figure = of_row(figure, pack, deviations, correlations, i);
    }
    figure
}
