// Layers over both boards: what is put and read through them, and small pictures.
mod pictures;
mod puts;
