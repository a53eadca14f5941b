// Pictures of many pixels side by side, each against the same drawn pixel by pixel.
mod cuts;
mod overlaps;
mod rows;
mod starts;
