//! Steps of the proof that JSON is read as its demands and its value say: what is left of lists, components, additions and elements, and the choices of rows.
